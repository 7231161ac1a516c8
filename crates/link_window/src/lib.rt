//! The numbering of one end of a connection: it numbers what is sent, keeps it until the other end has
//! acknowledged it, and takes what comes exactly once and in order. Contracts see a `Window` as the count
//! that the other end acknowledged, the bodies after that, and the count taken. Over any breaks, what one
//! end took is a front of what the other sent: `taken_in_order`.
#![tactic(auto)]

mod in_order;
mod window;

pub use in_order::taken_in_order;
pub use window::{Taken, Window, WindowError};
