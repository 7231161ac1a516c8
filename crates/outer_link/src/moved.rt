/// What a put did.
#[derive(Clone, Copy, Debug)]
pub enum Put {
    /// It took so many bytes from the front, at least one.
    Bytes(usize),
    /// It took none now.
    NotNow,
}

/// What a take did.
#[derive(Clone, Copy, Debug, PartialEq, Eq)]
pub enum Took {
    /// It gave so many bytes, at least one.
    Bytes(usize),
    /// Nothing is there now.
    NotNow,
    /// The connection has ended.
    Ended,
}
