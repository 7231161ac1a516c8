ghost use Rattle.std.specs.Prelude.{◌≡◌, ◌-◌, [], ◌∷◌, ◌++◌, length, take, OnOk, OnErr};
ghost use Rattle.std.specs.List.{filter, find};
ghost use Rattle.std.specs.Option.{option_copied};
ghost use Rattle.lock_index.specs.TicketWords.{has_ticket, has_other_ticket, is_elsewhere};

use crate::number_index::NumberIndex;
use crate::rows::{push_row, remove_rows};
use crate::ticketed::Ticketed;
use std::alloc::{AllocError, Global};
use std::collections::BTreeMap;
use std::marker::Model;

/// Rows in the order in which they came, each found by its ticket. Contracts see it as the list of the rows.
#[derive(Drop)]
pub struct TicketList<T: Ticketed> {
    rows: BTreeMap<u64, T>,
    index: NumberIndex<(u64, u32)>,
    /// The number of the next row.
    next: u64,
}

impl<T: Ticketed> Model for TicketList<T> {
    ghost use Rattle.std.specs.Prelude.{List};
    ghost use Rattle.std.specs.Map.{values_of};
    ghost use Rattle.lock_index.specs.TicketWords.{IsTicketIndex};

    ghost Value = { List T };

    ghost view = { λ l. values_of l.rows.entries };

    ghost invariant = { λ l. IsTicketIndex T.session T.ticket l.next l.index l.rows.entries };
}

impl<T: Ticketed> TicketList<T> {
    /// No rows. It takes no memory.
    pub fn new(alloc: Global) -> TicketList<T>
        ensures { result ≡ [] }
    {
        TicketList {
            rows: BTreeMap::new(alloc),
            index: NumberIndex::new(alloc),
            next: 0,
        }
    }

    /// The first row with this ticket.
    pub fn first_with(&self, session: u64, ticket: u32) -> Option<&T>
        ensures { option_copied result ≡ find (has_ticket T.session T.ticket session ticket) self.now }
    {
        let number = self.index.numbers(&(session, ticket)).first()?;
        self.rows.get(number)
    }

    /// One more row as the last. Out of memory, nothing changes. Past the greatest number it answers as where there
    /// is no memory.
    pub fn push(&mut self, row: T) -> Result<(), AllocError>
        ensures ok { OnOk result (self.new ≡ self.old ++ row ∷ []) }
        ensures err { OnErr result (self.new ≡ self.old) }
    {
        if self.next == u64::MAX {
            return Err(AllocError);
        }
        let key = (row.session(), row.ticket());
        push_row(&mut self.rows, &mut self.index, self.next, key, row)?;
        self.next += 1;
        Ok(())
    }

    /// The last row goes, if there is one.
    pub fn drop_last(&mut self)
        ensures { self.new ≡ take (length self.old - 1) self.old }
    {
        if let Some((number, row)) = self.rows.pop_last() {
            self.index.remove(&(row.session(), row.ticket()), number);
        }
    }

    /// The rows with this ticket go.
    pub fn drop_ticket(&mut self, session: u64, ticket: u32)
        ensures { self.new ≡ filter (has_other_ticket T.session T.ticket session ticket) self.old }
    {
        let numbers = self.index.take(&(session, ticket));
        remove_rows(&mut self.rows, numbers.as_slice());
    }

    /// The rows of this session go.
    pub fn drop_session(&mut self, session: u64)
        ensures { self.new ≡ filter (is_elsewhere T.session session) self.old }
    {
        self.rows.retain(|_number, row| row.session() != session);
        self.index.keep_rows(&self.rows);
    }
}
