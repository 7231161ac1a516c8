//! What is on its way between the two ends of each session stays as the invariant has it over the steps of application
//! servers and of their jobs. The contract of each function is one such law. Beside them stand lemmas of the proofs that
//! no clause names.
#![tactic(auto)]

pub mod laws;
