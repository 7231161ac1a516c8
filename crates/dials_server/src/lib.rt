//! The connections of each pair stay as they are said to be over the steps of a data server. `laws` names what is proved.
#![tactic(auto)]

pub mod laws;
