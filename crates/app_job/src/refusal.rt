use crate::reason::Reason;
use plain_orders::LinkName;

/// Why a command is refused.
#[derive(Clone, Copy, Debug, PartialEq, Eq)]
pub enum Refusal {
    /// A session at this data server was lost, or no connection could be made.
    Network {
        server: u8,
        state: LinkName,
        reason: Reason,
    },
    /// A session with an open transaction of the job was lost, and the job hasn't rolled back.
    RollbackOnly,
    /// The increment met a value that is no whole number, at this position.
    NotWhole {
        at: u64,
    },
    /// The sum at this position would have more than 18 digits.
    Range {
        at: u64,
    },
    /// The job has no transaction.
    NoTransaction,
    /// The job has as many transactions within one another as it may.
    TooDeep,
    /// The time to wait for a grant is over.
    LockTimeout,
}
