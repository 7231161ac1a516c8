/// How many application servers there may be: each has a place in a data server's tables.
pub const APP_LIMIT: usize = 256;
