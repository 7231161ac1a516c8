//! What application ends were told, and their tables, stay as the invariant has them over each move of the cluster. The
//! contract of each function is one such law. Beside them stand lemmas of the proofs that no clause names.
#![tactic(auto)]

pub mod laws;
