//! The connections of each pair stay as they are said to be as a data server takes the first frame of one of them, and so over
//! each move of the cluster. `laws` names what is proved.
#![tactic(auto)]

pub mod laws;
