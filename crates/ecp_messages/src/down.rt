ghost use Rattle.std.specs.Prelude.{◌≡◌};
ghost use Rattle.ecp_messages.specs.Downs.{down_row};

use crate::about::About;
use crate::block_part::BlockPart;
use crate::front::Front;
use subscript_keys::KeyBytes;

/// What a data server tells an application server.
#[derive(Drop)]
pub enum Down {
    /// The session, and how far both ends are.
    Welcome {
        session: u64,
        epoch: u32,
        kept: u64,
        front: Front,
        taken: u64,
    },
    /// The session is given up; `at` is the position of its Close.
    Reset {
        session: u64,
        at: u64,
    },
    Block {
        front: Front,
        block: BlockPart,
    },
    /// The span from `lo` to `hi` is no longer up to date.
    Drop {
        front: Front,
        lo: KeyBytes,
        hi: KeyBytes,
    },
    Ack {
        front: Front,
    },
    Grant {
        front: Front,
        ticket: u32,
        at: u64,
    },
    /// What became of an item, whose running number is `number`, or of the Sync with that ticket.
    Answer {
        front: Front,
        about: About,
        job: u16,
        number: u64,
        at: u64,
        sum: i64,
    },
    Normal {
        front: Front,
    },
    /// Nothing but the count of what was taken.
    Bare,
}

impl Down {
    /// Whether the message is numbered.
    pub fn is_numbered(&self) -> bool
        ensures { result ≡ (down_row self.now).numbered }
    {
        match self {
            Down::Welcome { .. } | Down::Reset { .. } | Down::Bare => false,
            _ => true,
        }
    }
}

/// A frame from a data server to an application server.
#[derive(Drop)]
pub struct DownFrame {
    /// The message's number, from 1; 0 where it has none.
    pub seq: u64,
    /// How many numbered messages of the other end were taken.
    pub ack: u64,
    pub message: Down,
}
