//! Each step of a data server keeps what is on its way: at its running node, in the lanes, and to each living application end.
#![tactic(auto)]

pub mod laws;
