/// The gate behind the last batch.
pub(crate) const CLOSED: u8 = 0;

/// The gate of a batch that counts, as it is written.
pub(crate) const OPEN: u8 = 1;
