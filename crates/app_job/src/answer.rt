use crate::place::Places;
use crate::refusal::Refusal;
use crate::why::Why;
use plain_orders::Via;
use subscript_keys::{Sub, ValueBytes};

/// What a command is answered. `at` is the length of the prefix of the update list at which the answer holds.
#[derive(Debug, Drop)]
pub enum Answer {
    /// The running numbers of what was issued (an update, an increment, a Commit or a Rollback), which is on its way.
    Queued {
        places: Places,
    },
    Value {
        value: Option<ValueBytes>,
        at: u64,
        via: Via,
    },
    /// `code` is 1 for a value and 10 for descendants, both or 0.
    Shape {
        code: u8,
        at: u64,
        via: Via,
    },
    /// None after the last subscript.
    Next {
        sub: Option<Sub>,
        at: u64,
        via: Via,
    },
    /// The sum of an increment.
    Counted {
        sum: i64,
        at: u64,
    },
    Granted {
        at: u64,
    },
    Done,
    /// The positions of the Commits.
    Committed {
        places: Places,
    },
    /// The positions of the Rollbacks.
    RolledBack {
        places: Places,
    },
    Waiting(Why),
    Refused(Refusal),
}
