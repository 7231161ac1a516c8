//! What a running data server has on its way, and has still to put, stays as it is said to be over its steps. `laws` names
//! what is proved.
#![tactic(auto)]

pub mod laws;
