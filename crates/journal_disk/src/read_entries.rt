ghost use Rattle.std.specs.Prelude.{◌≡◌, ◌↔◌, ◌++◌, ◌∷◌, [], IsTrue, IfOk, if◌then◌else◌};
ghost use Rattle.journal_disk.specs.Stands.{IsLow};
ghost use Rattle.journal_disk.specs.Reading.{MayBeRead};

use plain_orders::{Entries, Entry, START_EPOCH_LIMIT};
use plain_programs::OrderCheck;
use std::alloc::{AllocError, Global};
use std::marker::Model;

/// The entries that were read so far, oldest first. Contracts see it as their list.
#[derive(Drop)]
pub(crate) struct ReadEntries {
    order: OrderCheck,
}

impl Model for ReadEntries {
    ghost use Rattle.std.specs.Prelude.{List};
    ghost use Rattle.plain_orders.specs.declared.entry.Entry.{Entry};

    ghost Value = { List Entry };

    ghost view = { λ r. r.order };
}

impl ReadEntries {
    /// None so far.
    pub fn new(alloc: Global) -> ReadEntries
        ensures { result ≡ [] }
    {
        ReadEntries {
            order: OrderCheck::new(alloc),
        }
    }

    /// Takes the next entry where it may follow those before it and is no Epoch above the limit, and tells
    /// whether it does. Else nothing changes.
    pub fn push(&mut self, alloc: Global, entry: &Entry) -> Result<bool, AllocError>
        ensures took { IfOk result (λ took. IsTrue took ↔ MayBeRead self.old entry.now) }
        ensures new { IfOk result (λ took. self.new ≡ (if took then self.old ++ entry.now ∷ [] else self.old)) }
    {
        if !is_low(entry) {
            return Ok(false);
        }
        self.order.next(alloc, entry)
    }

    pub fn into_entries(self) -> Entries
        ensures { result ≡ self }
    {
        let ReadEntries { order } = self;
        order.into_entries()
    }
}

/// Whether an entry is no Epoch above the limit.
fn is_low(entry: &Entry) -> bool
    ensures { IsTrue result ↔ IsLow entry.now }
{
    match entry {
        Entry::Epoch { number } => *number <= START_EPOCH_LIMIT,
        _ => true,
    }
}
