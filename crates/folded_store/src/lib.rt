//! The fold of a list of entries over a table of pairs: the pairs, and what each open transaction would put back.
//!
//! Contracts see a `FoldedStore` as the `Folded` of the entries that it took: the map of the pairs, and the open
//! transactions, the latest begun first. `apply` takes any entry whose key and value are within their limits, and is one
//! step of the fold; it tells exactly the spans of what the entry does or undoes, and an increment's sum. `run_for` is the table's. Over
//! the tree of blocks it is the store of a data server, and over a flat list the `PlainStore`.
//!
//! Out of memory, an entry outside transactions changes nothing. Of one in an open transaction, or of the end of one, a part may
//! be done: no clause says which, and such a store is to be let go.
#![tactic(auto)]

mod begun;
mod changing;
mod entry_fit;
mod folded_store;
mod open_transaction;
mod plain_store;
mod undo_item;
mod undo_list;
mod undoing;

pub use entry_fit::entry_fits;
pub use folded_store::FoldedStore;
pub use open_transaction::TransactionName;
pub use plain_store::PlainStore;
