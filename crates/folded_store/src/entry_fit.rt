ghost use Rattle.std.specs.Prelude.{◌↔◌, IsTrue, IfOk};
ghost use Rattle.folded_store.specs.Limits.{EntryFits};

use plain_orders::Entry;
use plain_programs::op_may;
use std::alloc::{AllocError, Global};

/// Whether a store takes the entry: its key, value and amount are within their limits, and an increment is in no
/// transaction.
pub fn entry_fits(alloc: Global, entry: &Entry) -> Result<bool, AllocError>
    ensures { IfOk result (λ fits. IsTrue fits ↔ EntryFits entry.now) }
{
    match entry {
        Entry::Update { txn, op, .. } => op_may(alloc, *txn, op),
        _ => Ok(true),
    }
}
