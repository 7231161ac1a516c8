//! The plain machine that the product is compared with: data servers as lists of entries and of holds, jobs
//! with what they have seen, and one step for each act of a trail. Its definitions stand in the specs; a
//! `Recorder` writes a trail that is a run. No clause says that any program follows it.
#![tactic(auto)]

pub mod laws;
mod recorder;

pub use recorder::Recorder;
