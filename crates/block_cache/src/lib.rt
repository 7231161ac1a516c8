//! The runs that an application server keeps of a data server. Contracts see a `BlockCache` as the list of them, the most
//! recently used first; a Block counts as a use of its run, and past the limit the last goes.
#![tactic(auto)]

mod block_cache;
mod cache_change;
mod front;
mod limits;

pub use block_cache::BlockCache;
pub use cache_change::CacheChange;
pub use front::Front;
pub use limits::CACHE_LIMIT;
