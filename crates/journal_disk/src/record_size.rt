ghost use Rattle.std.specs.Prelude.{◌≡◌, ◌≤◌, length};
ghost use Rattle.field_bytes.specs.Fields.{op_bytes};
ghost use Rattle.journal_records.specs.Records.{entry_bytes, HasRecordOp, IsRecordOp};

use plain_orders::{Entry, Op};

/// How many bytes an operation takes in a record.
#[tactic(auto, using(crate::proofs::Sizes::field_sizes))]
fn op_size(txn: u32, op: &Op) -> usize
    requires { IsRecordOp txn op.now }
    ensures size { result ≡ length (op_bytes op.now) }
    ensures small { result ≤ 131075 }
{
    match op {
        Op::Set { key, value } => 5 + key.as_slice().len() + value.as_slice().len(),
        Op::Kill { key } => 3 + key.as_slice().len(),
        Op::Add { key, .. } => 11 + key.as_slice().len(),
    }
}

/// How many bytes the record of an entry takes.
#[tactic(auto, using(crate::proofs::Sizes::field_sizes))]
pub fn record_size(entry: &Entry) -> usize
    requires { HasRecordOp entry.now }
    ensures size { result ≡ length (entry_bytes entry.now) }
    ensures small { result ≤ 131098 }
{
    match entry {
        Entry::Epoch { .. } => 5,
        Entry::Opened { .. } => 10,
        Entry::Closed { .. } => 9,
        Entry::Update { txn, op, .. } => 23 + op_size(*txn, op),
        Entry::Commit { .. } | Entry::Rollback { .. } => 23,
    }
}
