/// How many lines a script may have.
pub const LINE_LIMIT: usize = 65_536;
