/// How many runs an application server keeps of a data server.
pub const CACHE_LIMIT: usize = 256;
