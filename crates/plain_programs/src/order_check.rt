ghost use Rattle.std.specs.Prelude.{◌≡◌, ◌+◌, ◌↔◌, ◌++◌, ◌∷◌, [], IsTrue, IfOk, OnErr, if◌then◌else◌};
ghost use Rattle.plain_orders.specs.Ordered.{EpochMay, OpenFollows, CloseMay, EndFollows, UpdateMay, MayFollow, IsOrdered};

use crate::op_check::op_may;
use crate::order_index::OrderIndex;
use crate::transaction_name::TransactionName;
use plain_orders::{Entries, Entry, Op};
use std::alloc::{AllocError, Global};
use std::marker::Model;

/// The entries of an ordered list so far. Contracts see it as the list.
#[derive(Debug, Drop)]
pub struct OrderCheck {
    entries: Vec<Entry>,
    index: OrderIndex,
}

impl Model for OrderCheck {
    ghost use Rattle.std.specs.Prelude.{List};
    ghost use Rattle.plain_orders.specs.declared.entry.Entry.{Entry};
    ghost use Rattle.plain_orders.specs.Ordered.{IsOrdered};
    ghost use Rattle.plain_programs.specs.Indexes.{Indexes};

    ghost Value = { List Entry };

    ghost view = { λ c. c.entries.items };

    ghost invariant = { λ c. IsOrdered c.entries.items × Indexes c.entries.items c.index };
}

impl OrderCheck {
    /// Of no entry.
    pub fn new(alloc: Global) -> OrderCheck
        ensures { result ≡ [] }
    {
        OrderCheck {
            entries: Vec::new(alloc),
            index: OrderIndex::new(alloc),
        }
    }

    /// The entries taken, oldest first.
    pub fn into_entries(self) -> Entries
        ensures { result ≡ self }
    {
        let OrderCheck { entries, .. } = self;
        Entries::from_vec(entries)
    }

    /// Takes the entry where the entries taken so far and this one are an ordered list, and tells
    /// whether they are. Else, and out of memory, nothing changes.
    pub fn next(&mut self, alloc: Global, entry: &Entry) -> Result<bool, AllocError>
        ensures exact { IfOk result (λ took. IsTrue took ↔ IsOrdered (self.old ++ entry.now ∷ [])) }
        ensures taken { IfOk result (λ took. self.new ≡ (if took then self.old ++ entry.now ∷ [] else self.old)) }
        ensures err { OnErr result (self.new ≡ self.old) }
    {
        if !self.may_follow(alloc, entry)? {
            return Ok(false);
        }
        let taken = entry.clone()?;
        self.entries.reserve(1)?;
        self.index.take(alloc, entry)?;
        // There is room, so nothing fails after the index's change.
        self.entries.push(taken)?;
        Ok(true)
    }

    /// Whether the entry may follow.
    fn may_follow(&self, alloc: Global, entry: &Entry) -> Result<bool, AllocError>
        ensures { IfOk result (λ may. IsTrue may ↔ MayFollow self.now entry.now) }
    {
        match entry {
            Entry::Epoch { number } => Ok(self.epoch_may(*number)),
            Entry::Opened { session, app } => Ok(self.open_may(*session, *app)),
            Entry::Closed { session } => Ok(self.close_may(*session)),
            Entry::Update {
                session,
                w,
                txn,
                op,
                ..
            } => self.update_may(alloc, *session, *w, *txn, op),
            Entry::Commit {
                session,
                w,
                job,
                txn,
            }
            | Entry::Rollback {
                session,
                w,
                job,
                txn,
            } => Ok(self.end_may(*session, *w, TransactionName::new(*job, *txn))),
        }
    }

    /// Whether an Epoch may follow.
    fn epoch_may(&self, number: u32) -> bool
        ensures { IsTrue result ↔ EpochMay self.now number }
    {
        number > 0 && number - 1 == self.index.last_epoch()
    }

    /// Whether an Open may follow.
    fn open_may(&self, session: u64, app: u8) -> bool
        ensures { IsTrue result ↔ OpenFollows self.now session app }
    {
        self.index.last_epoch() != 0
            && session > 0
            && session - 1 == self.entries.len() as u64
            && self.index.session_of(app).is_none()
    }

    /// Whether a Close may follow.
    fn close_may(&self, session: u64) -> bool
        ensures { IsTrue result ↔ CloseMay self.now session }
    {
        self.index.session(session).is_some()
    }

    /// Whether an Update may follow.
    fn update_may(
        &self,
        alloc: Global,
        session: u64,
        w: u64,
        txn: u32,
        op: &Op,
    ) -> Result<bool, AllocError>
        ensures { IfOk result (λ may. IsTrue may ↔ UpdateMay self.now session w txn op.now) }
    {
        match self.index.session(session) {
            Some(live) if live.is_next(w) => op_may(alloc, txn, op),
            _ => Ok(false),
        }
    }

    /// Whether a Commit or Rollback may follow.
    fn end_may(&self, session: u64, w: u64, name: TransactionName) -> bool
        ensures { IsTrue result ↔ EndFollows self.now session w name.job name.txn }
    {
        match self.index.session(session) {
            Some(live) => live.is_next(w) && live.is_open(name),
            None => false,
        }
    }
}
