//! The locks of a data server: what is held, what waits, and what was granted and a Cancel may still give back.
//! Contracts see a `LockTable` as these three lists. The words in the specs say what each call makes of them.
//!
//! A call that frees something goes through the waiting requests once, in their order. Out of memory in such a
//! pass, the requests that it hadn't come to wait on; every other call then leaves the table as it was.
#![tactic(auto)]

mod barring;
mod conflicts;
mod grants;
mod holds;
mod laws;
mod lock_table;
mod rows;

pub use conflicts::conflict;
pub use grants::Grants;
pub use laws::{keeps_apart, keeps_others};
pub use lock_table::{Asked, ClaimError, LockTable};
pub use rows::{Hold, Request, Who};
