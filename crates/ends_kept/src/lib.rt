//! The two ends of each pair stay as the plain machine has them: what the moves of application servers and their jobs
//! keep of the invariant, and that the trail stays a run. The contract of each function is one such law. Beside them
//! stand lemmas of the proofs that no clause names.
#![tactic(auto)]

pub mod laws;
