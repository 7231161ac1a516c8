//! The updates of one pair that the data server hasn't synced yet, oldest first: at most 1024. Contracts see
//! an `UpdateQueue` as the list of its items. A push takes no memory.
#![tactic(auto)]

mod item;
mod update_queue;

pub use item::Item;
pub use update_queue::{Full, ROOM, UpdateQueue};
