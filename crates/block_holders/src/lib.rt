//! Which spans a data server sent to which session. Contracts see a `Holders` as the list of these notes, in the order
//! in which they were made.
#![tactic(auto)]

mod drops;
mod holders;
mod noted;

pub use drops::Drops;
pub use holders::Holders;
pub use noted::Noted;
