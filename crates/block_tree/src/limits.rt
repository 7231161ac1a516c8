use block_bytes::BLOCK_LIMIT;
use subscript_keys::{KEY_LIMIT, VALUE_LIMIT};

/// How many bytes the edge of a leaf may have: a key, or the bytes behind a key.
pub const EDGE_LIMIT: usize = KEY_LIMIT + 1;

/// How many bytes the pairs of one leaf take at most, so that they fit a block whatever its edges are.
pub const LEAF_ROOM: usize = BLOCK_LIMIT - 7 - 2 * EDGE_LIMIT;

/// How many bytes all pairs may take, so that they fit one block over all keys.
pub const WHOLE_ROOM: usize = BLOCK_LIMIT - 8;

/// How many bytes a pair takes at most.
pub const PAIR_LIMIT: usize = 4 + KEY_LIMIT + VALUE_LIMIT;
