//! The connections of each pair stay as they are said to be over the frames that an application server takes, and so over
//! each of its inputs. `laws` names what is proved.
#![tactic(auto)]

pub mod laws;
