use crate::causes::{Loss, PairEnd, ShutCause};
use crate::entries::Entries;
use crate::entry::Entry;
use crate::item::Item;
use crate::mode::Mode;
use crate::question::Question;
use crate::refused::Refused;
use crate::via::Via;
use subscript_keys::KeyBytes;

/// One act of a trail, as one line of it shows. Servers, application servers and jobs go by their
/// indexes, `line` is the script's line, `at`, `length` and `kept` are positions in an update list, times
/// are moments of the clock.
#[derive(Drop)]
pub enum Act {
    /// The entries that the journal held at first; the Epoch follows by itself and is synced.
    Opened {
        server: u8,
        entries: Entries,
    },
    Enter {
        server: u8,
        entry: Entry,
    },
    Synced {
        server: u8,
        length: u64,
    },
    Shut {
        server: u8,
        session: u64,
        cause: ShutCause,
    },
    Release {
        server: u8,
        session: u64,
    },
    Met {
        app: u8,
        server: u8,
        session: u64,
    },
    Told {
        app: u8,
        server: u8,
        session: u64,
        epoch: u32,
        kept: u64,
    },
    Back {
        server: u8,
    },
    Crash {
        server: u8,
        kept: u64,
    },
    Issue {
        job: u16,
        line: u32,
        server: u8,
        w: u64,
        item: Item,
    },
    Read {
        job: u16,
        line: u32,
        server: u8,
        at: u64,
        via: Via,
        question: Question,
    },
    Grant {
        server: u8,
        session: u64,
        job: u16,
        mode: Mode,
        key: KeyBytes,
        at: u64,
    },
    Granted {
        job: u16,
        line: u32,
        server: u8,
        at: u64,
    },
    GiveUp {
        job: u16,
        line: u32,
        server: u8,
        mode: Mode,
        key: KeyBytes,
    },
    Quit {
        job: u16,
        line: u32,
        server: u8,
        mode: Mode,
        key: KeyBytes,
    },
    Free {
        server: u8,
        session: u64,
        job: u16,
        mode: Mode,
        key: KeyBytes,
    },
    Counted {
        job: u16,
        line: u32,
        server: u8,
        at: u64,
        sum: i64,
    },
    NotWhole {
        job: u16,
        line: u32,
        server: u8,
        at: u64,
    },
    Range {
        job: u16,
        line: u32,
        server: u8,
        at: u64,
    },
    Committed {
        job: u16,
        line: u32,
        server: u8,
        at: u64,
    },
    RolledBack {
        job: u16,
        line: u32,
        server: u8,
        at: u64,
    },
    Reached {
        job: u16,
        line: u32,
        server: u8,
        at: u64,
    },
    Level {
        job: u16,
        line: u32,
        level: u64,
    },
    Done {
        job: u16,
        line: u32,
    },
    Refused {
        job: u16,
        line: u32,
        refused: Refused,
    },
    Broke {
        app: u8,
        server: u8,
        end: PairEnd,
        time: u64,
    },
    Mended {
        app: u8,
        server: u8,
    },
    Tick {
        time: u64,
    },
    Lose {
        app: u8,
        server: u8,
        loss: Loss,
    },
    Died {
        app: u8,
    },
}
