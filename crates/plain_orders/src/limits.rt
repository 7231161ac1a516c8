/// The greatest epoch that a list may have where a data server starts from it.
pub const START_EPOCH_LIMIT: u32 = 2_147_483_648;

/// The least number that is no epoch any more.
pub const EPOCH_END: u64 = 4_294_967_296;
