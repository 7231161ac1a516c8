//! What a job is told to do and what it is answered. A target's type keeps that its key is its node's, so nothing
//! above encodes a node again. No clause says when an answer is given.
#![tactic(auto)]

mod answer;
mod command;
mod place;
mod reason;
mod refusal;
mod target;
mod why;

pub use answer::Answer;
pub use command::Command;
pub use place::{Place, Places};
pub use reason::Reason;
pub use refusal::Refusal;
pub use target::Target;
pub use why::Why;
