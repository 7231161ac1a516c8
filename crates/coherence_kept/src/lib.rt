//! What each session is put stays coherent, as the moves that the laws name keep it. The contract of each function is one
//! such law. Beside them stand lemmas of the proofs that no clause names.
#![tactic(auto)]

pub mod laws;
