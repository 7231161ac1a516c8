use crate::line_kind::LineKind;
use std::alloc::AllocError;
use thiserror::Error;

/// Why a text is no script. Lines count from 1.
#[derive(Debug, Drop, Error)]
pub enum ScriptError {
    #[error("line {line} of the script is bad")]
    BadLine { line: u32, kind: LineKind },
    #[error("the script has more than 65,536 lines")]
    TooManyLines,
    #[error("line {line} of the script names what isn't declared")]
    UnknownName { line: u32 },
    #[error("out of memory while reading a script")]
    Memory(AllocError),
}
