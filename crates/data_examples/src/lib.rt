//! Examples of the rules of a data server: whole steps from a state to a state, with what each puts and writes, and
//! for each condition an input that is refused since this one fails. Each function's contract is a group of them.
#![tactic(auto)]

pub mod data_examples;
