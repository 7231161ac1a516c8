//! What comes to an end on its connections is what it awaits: the next message, and to an application server no frame that is
//! stray. The contract of each function is one such law.
#![tactic(auto)]

pub mod laws;
