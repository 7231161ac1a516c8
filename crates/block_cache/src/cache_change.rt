use crate::front::Front;
use subscript_keys::{Run, Span};

/// What a message changed in a cache, with the front after it.
#[derive(Drop)]
pub enum CacheChange {
    /// A Block came.
    Block { front: Front, run: Run },
    /// A Drop came.
    Drop { front: Front, span: Span },
    /// The front moved, and no run came or went.
    Front { front: Front },
    /// All went.
    Clear { front: Front },
}
