/// What a command waits for. The first that holds counts.
#[derive(Clone, Copy, Debug, PartialEq, Eq)]
pub enum Why {
    /// The connection isn't Normal.
    State,
    /// The command needs a place in a full queue.
    Queue,
    /// The job's own updates haven't entered.
    Own,
    /// No cached run covers a needed key.
    Fetch,
    /// No grant was delivered in this epoch.
    Grant,
    /// No answer was delivered.
    Reply,
}
