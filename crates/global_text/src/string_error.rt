use std::alloc::AllocError;

/// Why a text begins with no string.
#[derive(Drop)]
pub enum StringError {
    /// Neither form stands there, or a backslash begins no item.
    Bad,
    /// The string in quotes doesn't end on its line.
    Unclosed,
    /// The string has more bytes than there is room for.
    TooLong,
    Memory(AllocError),
}
