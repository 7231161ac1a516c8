//! The tree of the pairs: a map whose pairs stand in leaves of at most one block each.
//!
//! The pairs stand in one ordered map of std, so that `get`, `next` and `set` cost what they cost there, and the depth is the
//! map's. The leaves are a list beside it: where each begins, and how many bytes its pairs take at most. They adjoin and
//! cover all keys, so a leaf is cut or joined by one edge more or less, and no pair moves. A count may be too high, where
//! values were put in place of others; it is mended before a leaf is cut.
//!
//! Contracts see a `BlockTree` as the map, a list of pairs that rises by the keys. They say nothing of the leaves but what
//! a run says: it is true of the map, covers the key and fits a block. No clause says that leaves are halved when they
//! are full or joined when they are half empty, nor how long a call takes.
//!
//! `PairTable` is what a store asks of its pairs, and `FlatPairs` the same without leaves.
#![tactic(auto)]

mod block_tree;
mod copying;
mod flat_pairs;
mod key_end;
mod leaf;
mod leaf_table;
mod leaves;
mod limits;
mod making_room;
mod pair_table;
mod removing;
mod room;
mod sizes;
mod tidying;

pub use block_tree::BlockTree;
pub use flat_pairs::FlatPairs;
pub use key_end::{is_before_end, keys_are_before_end};
pub use pair_table::PairTable;
