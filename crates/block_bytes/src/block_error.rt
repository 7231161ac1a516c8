use std::alloc::AllocError;
use thiserror::Error;

/// Why a run has no block, or bytes are none.
#[derive(Debug, Drop, Error)]
pub enum BlockError {
    #[error("the run has more than 8192 bytes")]
    BlockTooLarge,
    #[error("these bytes are no run's block")]
    NotABlock,
    #[error("out of memory at a block")]
    Memory(AllocError),
}
