use crate::op::Op;

/// An entry of a data server's update list. Sessions are positions of their `Opened`; `w` is the running
/// number of a session's items, from 1; `txn` 0 means no transaction.
#[derive(Clone, Debug, PartialEq, Eq, Drop)]
pub enum Entry {
    Epoch {
        number: u32,
    },
    Opened {
        session: u64,
        app: u8,
    },
    Closed {
        session: u64,
    },
    Update {
        session: u64,
        w: u64,
        job: u16,
        txn: u32,
        op: Op,
    },
    Commit {
        session: u64,
        w: u64,
        job: u16,
        txn: u32,
    },
    Rollback {
        session: u64,
        w: u64,
        job: u16,
        txn: u32,
    },
}
