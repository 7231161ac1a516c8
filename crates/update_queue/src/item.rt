use bytes::Bytes;

/// An update, increment, commit or rollback on its way.
#[derive(Debug, Drop)]
pub struct Item {
    /// Its running number in its session, from 1.
    pub w: u64,
    /// The body of its message.
    pub frame: Bytes,
    pub job: u16,
    /// Whether its job wants an answer.
    pub wants: bool,
}
