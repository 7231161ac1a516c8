/// How many bytes an encoded key may have.
pub const KEY_LIMIT: usize = 500;

/// How many bytes a value may have.
pub const VALUE_LIMIT: usize = 3000;

/// How many digits a canonical number may have.
pub const DIGIT_LIMIT: usize = 18;

/// The least whole number that has more digits: 10 to the power `DIGIT_LIMIT`.
pub const NUMBER_LIMIT: u64 = 1_000_000_000_000_000_000;

/// How many bytes the name of a global may have, without the caret.
pub const GLOBAL_NAME_LIMIT: usize = 31;

/// How many bytes the name of a server or a job may have.
pub const NODE_NAME_LIMIT: usize = 16;
