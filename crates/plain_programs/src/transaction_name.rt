ghost use Rattle.std.specs.Prelude.{◌≡◌};

/// What a transaction is known by in its session.
#[derive(Clone, Copy, Debug, PartialEq, Eq, PartialOrd, Ord)]
pub struct TransactionName {
    pub job: u16,
    pub txn: u32,
}

impl TransactionName {
    pub fn new(job: u16, txn: u32) -> TransactionName
        ensures { result ≡ record { job = job; txn = txn } }
    {
        TransactionName { job, txn }
    }
}
