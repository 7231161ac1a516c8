/// How many transactions a job may have within one another.
pub const LEVEL_LIMIT: u64 = 255;
