//! Rounds put what they are to put: this part of the invariant, as data servers keep it with each of their steps, and so as
//! each move keeps it. The contract of each function is one such law.
#![tactic(auto)]

pub mod laws;
