//! The items at a data server: each that enters in a step may come in its turn. The contract of the function is that law.
#![tactic(auto)]

pub mod laws;
