//! A live session whose Welcome was put in the current order of a data server has a window there, over each move. The contract of
//! each function is one such law.
#![tactic(auto)]

pub mod laws;
