//! Rounds put what they are to put: this part of the invariant, as the moves that the laws name keep it. The contract of each
//! function is one such law.
#![tactic(auto)]

pub mod laws;
