ghost use Rattle.std.specs.Prelude.{◌↔◌, IsTrue, IfOk};
ghost use Rattle.plain_orders.specs.Ordered.{KeyMay, OpMay};

use plain_orders::Op;
use std::alloc::{AllocError, Global};
use subscript_keys::{KEY_LIMIT, KeyBytes, KeyError, NUMBER_LIMIT, VALUE_LIMIT, decode};

/// Whether a key is that of a node, within the limit on keys.
fn key_may(alloc: Global, key: &KeyBytes) -> Result<bool, AllocError>
    ensures { IfOk result (λ may. IsTrue may ↔ KeyMay key.now) }
{
    if key.as_slice().len() > KEY_LIMIT {
        return Ok(false);
    }
    match decode(alloc, key.as_slice()) {
        Ok(_node) => Ok(true),
        Err(KeyError::Memory(error)) => Err(error),
        Err(_) => Ok(false),
    }
}

/// Whether an operation's key, value and amount are within their limits, and an increment is in no
/// transaction.
pub fn op_may(alloc: Global, txn: u32, op: &Op) -> Result<bool, AllocError>
    ensures { IfOk result (λ may. IsTrue may ↔ OpMay txn op.now) }
{
    match op {
        Op::Set { key, value } => {
            if value.as_slice().len() > VALUE_LIMIT {
                return Ok(false);
            }
            key_may(alloc, key)
        }
        Op::Kill { key } => key_may(alloc, key),
        Op::Add { key, amount } => {
            if txn != 0 || amount.unsigned_abs() >= NUMBER_LIMIT {
                return Ok(false);
            }
            key_may(alloc, key)
        }
    }
}
