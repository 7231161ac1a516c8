ghost use Rattle.std.specs.Prelude.{◌↔◌, IsTrue};
ghost use Rattle.field_bytes.specs.Fields.{IsOpField};
ghost use Rattle.journal_records.specs.Records.{IsRecordOp};

use plain_orders::Op;
use subscript_keys::NUMBER_LIMIT;

/// Whether an operation whose parts stand in fields may stand in a record; `txn` is its transaction, 0
/// being none.
pub fn is_record_op(txn: u32, op: &Op) -> bool
    requires { IsOpField op.now }
    ensures { IsTrue result ↔ IsRecordOp txn op.now }
{
    match op {
        Op::Add { amount, .. } => txn == 0 && amount.unsigned_abs() < NUMBER_LIMIT,
        Op::Set { .. } | Op::Kill { .. } => true,
    }
}
