/// The most bytes that a script may have.
pub const TEXT_LIMIT: usize = 67_108_864;

/// How many bytes of a source one take asks for.
pub const CHUNK: usize = 65_536;
