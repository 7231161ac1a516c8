ghost use Rattle.std.specs.Prelude.{◌≡◌};
ghost use Rattle.ecp_messages.specs.Ups.{up_row};

use plain_orders::{Mode, Op};
use subscript_keys::KeyBytes;

/// What an application server tells a data server.
#[derive(Drop)]
pub enum Up {
    /// Asks for a new session. `dial` is the number of this connection, from 1.
    Hello {
        app: u8,
        dial: u32,
    },
    /// Asks to go on with a session, of whose down messages `taken` were taken.
    Recover {
        app: u8,
        session: u64,
        epoch: u32,
        taken: u64,
        dial: u32,
    },
    /// The update with the running number `w`, a Set or a Kill; `txn` is 0 outside of transactions.
    Update {
        w: u64,
        job: u16,
        txn: u32,
        op: Op,
    },
    /// The increment with the running number `w`.
    Add {
        w: u64,
        job: u16,
        key: KeyBytes,
        amount: i64,
    },
    /// Asks for a block. The key is any bytes from one on that stand below the byte FF.
    Fetch {
        key: KeyBytes,
    },
    Ask {
        ticket: u32,
        job: u16,
        mode: Mode,
        key: KeyBytes,
    },
    Unlock {
        job: u16,
        mode: Mode,
        key: KeyBytes,
    },
    Cancel {
        ticket: u32,
    },
    /// `wanted` tells whether the job waits for the Answer.
    Commit {
        w: u64,
        job: u16,
        txn: u32,
        wanted: bool,
    },
    Rollback {
        w: u64,
        job: u16,
        txn: u32,
    },
    Sync {
        ticket: u32,
    },
    Done,
    /// A lock that the job held `count` times, at least once, since the position `at`.
    Claim {
        job: u16,
        mode: Mode,
        count: u32,
        at: u64,
        key: KeyBytes,
    },
    /// Nothing but the count of what was taken.
    Bare,
}

impl Up {
    /// Whether the message is numbered.
    pub fn is_numbered(&self) -> bool
        ensures { result ≡ (up_row self.now).numbered }
    {
        match self {
            Up::Hello { .. } | Up::Recover { .. } | Up::Bare => false,
            _ => true,
        }
    }
}

/// A frame from an application server to a data server.
#[derive(Drop)]
pub struct UpFrame {
    /// The message's number, from 1; 0 where it has none.
    pub seq: u64,
    /// How many numbered messages of the other end were taken.
    pub ack: u64,
    pub message: Up,
}
