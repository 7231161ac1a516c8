//! The store of a data server: the pairs that its list of entries makes, what each open transaction would put back, and
//! what the list says of its sessions. The list itself is not kept.
//!
//! `IsStoreOf es store` says that a store stands for the ordered list `es`. Each call's clause says what it answers for
//! every list that it stands for, and `apply` goes on by an entry that may follow. A store of which `apply` answered an
//! `Err` is spent: it stands for no list, and refuses from then on.
#![tactic(auto)]

mod global_store;

pub use folded_store::{TransactionName, entry_fits};
pub use global_store::GlobalStore;
pub use session_books::{Owed, OwedItem};
