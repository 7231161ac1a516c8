/// The state of a connection, as a refusal names it.
#[derive(Clone, Copy, Debug, PartialEq, Eq)]
pub enum LinkName {
    NotConnected,
    Normal,
    Trouble,
    Recovery,
}

/// Why a session was lost or a connection could not be made, as a refusal names it.
#[derive(Clone, Copy, Debug, PartialEq, Eq)]
pub enum ReasonName {
    Reset,
    Expired,
    NoWay,
}

/// A refusal that no other act shows.
#[derive(Clone, Copy, Debug, PartialEq, Eq)]
pub enum Refused {
    NoTransaction,
    TooDeep,
    RollbackOnly,
    LockTimeout,
    Network {
        server: u8,
        state: LinkName,
        reason: ReasonName,
    },
}
