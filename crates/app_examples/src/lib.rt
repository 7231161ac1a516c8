//! Examples of the rules of an application server: whole steps of its ends and of a job, with what each puts and
//! writes, and for each condition an input that is refused since this one fails. Each function's contract is a group
//! of them.
#![tactic(auto)]

pub mod examples;
