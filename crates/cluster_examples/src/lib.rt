//! Examples of the whole cluster as a machine: runs move by move, each with its frames, its acts and the state after
//! it, and for each condition of a move one that is refused since this condition fails. Each function's contract is a
//! run or a group of refusals.
#![tactic(auto)]

pub mod examples;
