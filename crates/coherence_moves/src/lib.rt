//! What was put to each session in each order stays coherent over each move of the machine. `laws` names what is proved.
#![tactic(auto)]

pub mod laws;
