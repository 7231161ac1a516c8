//! The data ends of running nodes stay as the invariant has them over each move of the cluster: links, the round, and the
//! Hellos that wait. The contract of each function is one such law. Beside them stand lemmas of the proofs that no clause
//! names.
#![tactic(auto)]

pub mod laws;
