/// What an Answer tells of an item, or that a Sync is done.
#[derive(Clone, Copy, Debug, PartialEq, Eq)]
pub enum About {
    /// An increment whose sum is told.
    Counted,
    /// An increment on a value that is no whole number.
    NotWhole,
    /// An increment whose sum would pass the range.
    Range,
    Committed,
    RolledBack,
    Synced,
}
