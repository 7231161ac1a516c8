//! Examples of the plain machine: for each act a trail after which it is accepted, and for each of its
//! conditions a trail after which it is refused since this one fails. Each function's contract is a group of them.
#![tactic(auto)]

pub mod examples;
