//! Rounds put what they are to put: this part of the invariant, as application servers and their jobs keep it. The contract of
//! each function is one such law.
#![tactic(auto)]

pub mod laws;
