use app_job::Answer;

/// An answer, and the job and the script's line that it is for. A command that waits has such a line too.
#[derive(Debug, Drop)]
pub struct AnswerLine {
    pub job: u16,
    pub line: u32,
    pub answer: Answer,
}

/// How a restart of a data server ended.
#[derive(Clone, Copy, Debug, PartialEq, Eq)]
pub enum Restarted {
    /// It is up, and kept so many entries.
    Kept { entries: u64 },
    DiskFault,
    /// The first bad gate of its journal is at this byte.
    NotAJournal { place: u64 },
    /// The first position at which the list read isn't a front of the server's order that has its synced part.
    NotKept { place: u64 },
    NetFault,
    /// It was running, and nothing changed.
    Running,
}

/// One line of a transcript. `line` is the script's line that it belongs to.
#[derive(Debug, Drop)]
pub enum Piece {
    Answered(AnswerLine),
    /// What a pump left undelivered or unsaved, if anything.
    Pumped {
        line: u32,
        left: Option<u64>,
    },
    Restarted {
        server: u8,
        line: u32,
        outcome: Restarted,
    },
    /// A save failed, and the data server is down.
    Halted {
        server: u8,
        line: u32,
    },
    /// The job's application server is dead.
    Gone {
        job: u16,
        line: u32,
    },
}
