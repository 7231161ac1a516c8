/// How many bytes a block has at most.
pub const BLOCK_LIMIT: usize = 8192;

/// The first byte of a block.
pub(crate) const FORM: u8 = 1;
