use thiserror::Error;

/// Why bytes can't be fed.
#[derive(Clone, Copy, Debug, PartialEq, Eq, Error)]
pub enum FrameError {
    #[error("a frame of {0} bytes is too long")]
    TooLong(u32),
    #[error("a frame has no bytes")]
    Empty,
    #[error("out of memory while frames are read")]
    Memory,
}
