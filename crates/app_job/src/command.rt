use crate::target::Target;
use plain_orders::Mode;
use subscript_keys::{Sub, ValueBytes};

/// What a job is told to do.
#[derive(Debug, Drop)]
pub enum Command {
    Set {
        at: Target,
        value: ValueBytes,
    },
    /// The node and its descendants go.
    Kill {
        at: Target,
    },
    Get {
        at: Target,
    },
    /// Whether the node has a value, and whether it has descendants.
    Shape {
        at: Target,
    },
    /// The next subscript below the parent after `sub`, or the first where that is none.
    Next {
        parent: Target,
        sub: Option<Sub>,
    },
    /// An increment by a whole number of at most 18 digits.
    Incr {
        at: Target,
        amount: i64,
    },
    /// `wait` is in ticks: how long the job waits for a grant.
    Lock {
        at: Target,
        mode: Mode,
        wait: Option<u32>,
    },
    /// `now`: in a transaction too, and not only after its end.
    Unlock {
        at: Target,
        mode: Mode,
        now: bool,
    },
    /// Begins a transaction.
    Start,
    /// Ends a transaction; `sync` waits until it is on disk.
    Commit {
        sync: bool,
    },
    Rollback,
    /// Waits until all that the job issued at this data server is on disk.
    Sync {
        server: u8,
    },
}
