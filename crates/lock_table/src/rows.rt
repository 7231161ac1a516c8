ghost use Rattle.std.specs.Prelude.{◌≡◌};

use lock_index::Ticketed;
use plain_orders::Mode;
use subscript_keys::KeyBytes;

/// A holder: a job in a session.
#[derive(Clone, Copy, Debug)]
pub struct Who {
    pub session: u64,
    pub job: u16,
}

/// What a job holds of a name in a mode, since the length at which it had none.
#[derive(Clone, Debug, Drop)]
pub struct Hold {
    pub who: Who,
    pub name: KeyBytes,
    pub mode: Mode,
    pub count: u32,
    pub at: u64,
}

/// A request, which waits or was granted.
#[derive(Clone, Drop)]
pub struct Request {
    pub who: Who,
    pub ticket: u32,
    pub name: KeyBytes,
    pub mode: Mode,
}

impl Ticketed for Request {
    ghost session = { λ r. r.who.session };

    ghost ticket = { λ r. r.ticket };

    fn session(&self) -> u64 {
        self.who.session
    }

    fn ticket(&self) -> u32 {
        self.ticket
    }
}
