//! The fronts of the application ends stay those of what they took, over each move, and what follows of it: each cached run is
//! true at its session's front. The contract of each function is one such law.
#![tactic(auto)]

pub mod laws;
