//! Laws over every run of the plain machine, on its holds and on the requests that were given up: what each of them says of
//! its session and of the order, that no two were given up at the same turn, and what acts make of a hold. The contract of
//! each function in `laws` is a law, and takes no memory; `examples` has a run on which what they ask for holds.
#![tactic(auto)]

pub mod examples;
pub mod laws;
