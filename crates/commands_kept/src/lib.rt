//! Each request for a lock of an application end is that of a command for which a job waits, over moves. The contract of each
//! function is one such law.
#![tactic(auto)]

pub mod laws;
