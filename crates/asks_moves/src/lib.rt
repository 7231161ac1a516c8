//! Requests for locks stay as they are to be, over each move: a job asks once, and what waits at a data server is what its
//! session asked for. The contract of each function is one such law.
#![tactic(auto)]

pub mod laws;
