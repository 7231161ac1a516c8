//! Laws over every run of the plain machine: what anybody may conclude from a trail that is one. The contract of each
//! function in `laws` is a law, and takes no memory; `examples` has a run for each on which what it asks for holds. No
//! clause says that a program's trail is a run.
#![tactic(auto)]

pub mod examples;
pub mod laws;
