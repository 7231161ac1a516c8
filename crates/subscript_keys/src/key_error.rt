use std::alloc::AllocError;
use thiserror::Error;

/// Why a node has no key, or a key no node.
#[derive(Debug, Drop, Error)]
pub enum KeyError {
    #[error("the key has more than 500 bytes")]
    KeyTooLong,
    #[error("a subscript is the empty text")]
    EmptySubscript,
    #[error("these bytes are no node's key")]
    NotAKey,
    #[error("out of memory at a key")]
    Memory(AllocError),
}
