/// Why a session was lost or a connection could not be made, with what shows it.
#[derive(Clone, Copy, Debug, PartialEq, Eq)]
pub enum Reason {
    /// The session's Close stands synced at this position.
    Reset { at: u64 },
    /// The connection broke at the first moment and wasn't mended until the second.
    Expired { broke: u64, now: u64 },
    /// The net's count of failed connects rose between these.
    NoWay { before: u64, after: u64 },
}
