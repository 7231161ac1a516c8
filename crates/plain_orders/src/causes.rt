/// Why a data server closed a session, times being moments of the clock.
#[derive(Clone, Copy, Debug, PartialEq, Eq)]
pub enum ShutCause {
    Trouble { time: u64 },
    Replaced,
    Round { time: u64 },
}

/// The end of a pair's connection that noticed a break.
#[derive(Clone, Copy, Debug, PartialEq, Eq)]
pub enum PairEnd {
    App,
    Server,
}

/// How an application server lost a session, or found no way to a data server. `at` is the position of
/// the session's Close; `before` and `after` count failed connects.
#[derive(Clone, Copy, Debug, PartialEq, Eq)]
pub enum Loss {
    Reset { at: u64 },
    Expired { time: u64 },
    NoWay { before: u64, after: u64 },
}
