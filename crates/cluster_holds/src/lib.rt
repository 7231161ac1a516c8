//! The invariant of the cluster in each state that some list of allowed moves leads to, where the trail is a run of the plain
//! machine. `laws` names what is proved.
#![tactic(auto)]

pub mod laws;
