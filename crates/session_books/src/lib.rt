//! What an ordered list of entries says of its sessions, without the list: counts, live sessions, Closes, Epochs, and what
//! items of live sessions are owed.
//!
//! A `SessionBooks` has no value of its own: `IsBooksOf es books` says that it stands for the list `es`, and each call's
//! clause says what it answers for every list that it stands for. `take` goes on by an entry that may follow. Out of memory
//! it may stand for no list any more, and is to be let go. What items are owed is kept while their session is live.
#![tactic(auto)]

mod owed;
mod session_book;
mod session_books;

pub use owed::{Owed, OwedItem};
pub use session_books::SessionBooks;
