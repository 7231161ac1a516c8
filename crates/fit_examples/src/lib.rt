//! Examples of what fits a script and of what doesn't, asked of the definitions as they stand. No clause says that any program follows them.
#![tactic(auto)]

pub mod examples;
