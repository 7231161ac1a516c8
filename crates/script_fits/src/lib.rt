//! When a script's output fits the script: each job's commands stand in the trail in their order, each with just its
//! answer, and what is printed stands where the script's lines put it. Contracts cite the definitions; there is no code.
#![tactic(auto)]

mod output;

pub use output::Output;
