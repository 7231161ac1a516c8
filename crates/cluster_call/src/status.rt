ghost use Rattle.std.specs.Prelude.{◌≡◌};

use job_script::LineKind;

/// How a call ended. Lines count from 1.
#[derive(Clone, Copy, Debug, PartialEq, Eq)]
pub enum Status {
    /// The input was read to its end and all output was put.
    Ok,
    /// The words aren't a form of the command.
    Usage,
    /// The first line that is outside the grammar.
    BadLine { line: u32, kind: LineKind },
    /// The first bad line, which names what isn't declared.
    UnknownName { line: u32 },
    /// The first line of a form that isn't built yet, where no line is bad.
    NotBuilt { line: u32 },
    /// More bytes or lines than a script may have.
    TooLarge,
    ReadFault,
    WriteFault,
    OutOfMemory,
}

impl Status {
    ghost use Rattle.cluster_call.specs.StatusCauses.{status_number};

    /// The exit status of the program.
    pub fn number(&self) -> u8
        ensures { result ≡ status_number self.now }
    {
        match self {
            Status::Ok => 0,
            Status::Usage => 2,
            Status::BadLine { .. } | Status::UnknownName { .. } | Status::NotBuilt { .. } => 3,
            Status::TooLarge => 4,
            Status::ReadFault => 5,
            Status::WriteFault => 6,
            Status::OutOfMemory => 11,
        }
    }
}
