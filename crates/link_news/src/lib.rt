//! What is on its way between the two ends of each session stays as the invariant has it over each input of an application
//! server, also where an end learns of a new session or of a new epoch. The contract of each function is one such law.
//! Beside them stand lemmas of the proofs that no clause names.
#![tactic(auto)]

pub mod laws;
