use std::alloc::AllocError;
use thiserror::Error;

/// Why a text begins with no node or no value.
#[derive(Debug, Drop, Error)]
pub enum TextError {
    #[error("no caret begins the node")]
    NoCaret,
    #[error("no global's name follows the caret")]
    BadName,
    #[error("a subscript is neither a number nor a string in quotes, or neither a comma nor a parenthesis follows it")]
    BadSubscript,
    #[error("a string in quotes or the list of subscripts doesn't end")]
    Unclosed,
    #[error("the node's key has more than 500 bytes")]
    KeyTooLong,
    #[error("the value is neither a number nor a string in quotes")]
    BadValue,
    #[error("the value has more than 3000 bytes")]
    ValueTooLong,
    #[error("out of memory at a node or a value")]
    Memory(AllocError),
}
