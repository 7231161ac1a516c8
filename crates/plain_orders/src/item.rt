use crate::op::Op;

/// What a job issues at a data server.
#[derive(Debug, PartialEq, Eq, Drop)]
pub enum Item {
    Op(Op),
    Commit { txn: u32 },
    Rollback { txn: u32 },
}
