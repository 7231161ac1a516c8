/// An end that has taken so many numbered messages since it put a frame puts one with their count alone.
pub const BARE_LIMIT: u64 = 64;
