/// What happens to an end of a pair.
#[derive(Clone, Copy)]
pub enum LinkEvent {
    /// A Welcome of a new session came.
    Welcomed,
    /// The connection ended.
    Ended,
    /// The time now. A recovering end gets it only while its session isn't done, which the round decides.
    Ticked,
    /// The pair, which was kept apart, may connect again.
    Joined,
    Connected,
    ConnectFailed,
    /// All that a recovery waits for has come.
    Settled,
    /// A Reset came: the session was closed.
    ResetCame,
    /// A session was opened.
    Opened,
    /// The application server goes on with its session on a new connection.
    Resumed,
    /// The round of recovery is over.
    RoundOver { connected: bool },
    /// The application server asked for a new session.
    Replaced,
    /// The application server has sent again all that it owed. It changes no state.
    IsDone,
}
