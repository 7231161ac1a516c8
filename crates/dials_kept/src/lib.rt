//! The connections of each pair stay as they are said to be: which were made and left, what was put first on each, and
//! which of them both ends still have. `laws` names the moves that keep this part of the invariant.
#![tactic(auto)]

pub mod laws;
