ghost use Rattle.std.specs.Prelude.{◌≡◌, ◌+◌, ℕ, List, [], ◌∷◌, ◌++◌, ◌↔◌, IsTrue, OnOk, OnErr};
ghost use Rattle.plain_orders.specs.declared.entry.Entry.{Entry};
ghost use Rattle.plain_orders.specs.declared.entry.Entry.TheVariants.{Update, Commit, Rollback};
ghost use Rattle.plain_orders.specs.Begun.{is_of_one};
ghost use Rattle.plain_orders.specs.Entries.{count};
ghost use Rattle.std.specs.BTreeSet.{contains};
ghost use Rattle.plain_programs.specs.Indexes.{name_cmp, IsIndexed};

use crate::transaction_name::TransactionName;
use plain_orders::Op;
use std::alloc::{AllocError, Global};
use std::collections::BTreeSet;

/// Whether an update of this number and operation is one of a transaction.
fn is_of_one(txn: u32, op: &Op) -> bool
    ensures { result ≡ is_of_one txn op.now }
{
    match op {
        Op::Set { .. } => txn != 0,
        Op::Kill { .. } => txn != 0,
        Op::Add { .. } => false,
    }
}

/// What a live session has done so far.
#[derive(Debug, Drop)]
pub struct LiveSession {
    /// Its application server.
    pub app: u8,
    /// The greatest running number of its items, or 0.
    pub count: u64,
    /// Its open transactions.
    pub begun: BTreeSet<TransactionName>,
}

impl LiveSession {
    /// Whether the running number of an item is the next.
    pub fn is_next(&self, w: u64) -> bool
        ensures { IsTrue result ↔ (w ≡ self.now.count + 1) }
    {
        w > 0 && w - 1 == self.count
    }

    /// Whether a transaction is open.
    pub fn is_open(&self, name: TransactionName) -> bool
        ensures { result ≡ contains name_cmp self.now.begun name }
    {
        self.begun.contains(&name)
    }

    /// Takes an Update of the session. Out of memory, nothing changes.
    pub fn take_update(&mut self, w: u64, name: TransactionName, op: &Op) -> Result<(), AllocError>
        ensures ok { OnOk result ((es : List Entry) (s : ℕ) → IsIndexed es s self.old → w ≡ count es s + 1
            → IsIndexed (es ++ Update s w name.job name.txn op.now ∷ []) s self.new) }
        ensures err { OnErr result ((es : List Entry) (s : ℕ) → IsIndexed es s self.old → IsIndexed es s self.new) }
    {
        if is_of_one(name.txn, op) {
            self.begun.insert(name)?;
        }
        self.count = w;
        Ok(())
    }

    /// Takes a Commit or Rollback of the session.
    pub fn take_end(&mut self, w: u64, name: TransactionName)
        ensures commit { (es : List Entry) (s : ℕ) → IsIndexed es s self.old → w ≡ count es s + 1
            → IsIndexed (es ++ Commit s w name.job name.txn ∷ []) s self.new }
        ensures rollback { (es : List Entry) (s : ℕ) → IsIndexed es s self.old → w ≡ count es s + 1
            → IsIndexed (es ++ Rollback s w name.job name.txn ∷ []) s self.new }
    {
        self.begun.remove(&name);
        self.count = w;
    }
}
