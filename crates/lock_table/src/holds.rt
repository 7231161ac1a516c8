ghost use Rattle.std.specs.Prelude.{◌≡◌, ℕ, ◌+◌, ◌<◌, ◌^◌, [], ◌∷◌, ◌++◌, filter, OnOk, OnErr, IfOk};
ghost use Rattle.std.specs.List.{find, list_any};
ghost use Rattle.lock_index.specs.IndexWords.{passes_at};
ghost use Rattle.lock_table.specs.LockWords.{is_barred, holds_it, is_lane, raised, lowered, is_hold_elsewhere};
ghost use Rattle.lock_table.specs.Counts.{held_count, count_in};
ghost use Rattle.lock_table.specs.HoldIndex.{weight_at};

use crate::barring::Barring;
use crate::conflicts::{is_barred, is_lane};
use crate::rows::{Hold, Who};
use lock_index::{NumberIndex, push_row};
use plain_orders::Mode;
use std::alloc::{AllocError, Global};
use std::collections::BTreeMap;
use std::marker::Model;
use subscript_keys::KeyBytes;

/// What is held, in the order of first grants. Contracts see it as the list of holds.
#[derive(Drop)]
pub struct Holds {
    /// The holds by running numbers.
    rows: BTreeMap<u64, Hold>,
    /// Their numbers by their names.
    names: NumberIndex<KeyBytes>,
    /// The number of the next hold.
    next: u64,
}

impl Model for Holds {
    ghost use Rattle.std.specs.Prelude.{List};
    ghost use Rattle.std.specs.Map.{values_of};
    ghost use Rattle.lock_table.specs.declared.rows.Hold.{Hold};
    ghost use Rattle.lock_table.specs.HoldIndex.{IsNameIndex};

    ghost Value = { List Hold };

    ghost view = { λ h. values_of h.rows.entries };

    ghost invariant = { λ h. IsNameIndex h.next h.names h.rows.entries };
}

impl Holds {
    /// None. It takes no memory.
    pub fn new(alloc: Global) -> Holds
        ensures { result ≡ [] }
    {
        Holds {
            rows: BTreeMap::new(alloc),
            names: NumberIndex::new(alloc),
            next: 0,
        }
    }

    /// Whether a hold of another holder conflicts with this name in this mode.
    pub fn bar(&self, who: Who, name: &KeyBytes, mode: Mode) -> Result<bool, AllocError>
        ensures { IfOk result (λ bars. bars ≡ list_any (is_barred who name.now mode) self.now) }
    {
        let barring = Barring {
            rows: &self.rows,
            who,
            name,
            mode,
        };
        self.names.any_beside(name, &barring)
    }

    /// A copy of the first of these.
    pub fn first_barring(
        &self,
        who: Who,
        name: &KeyBytes,
        mode: Mode,
    ) -> Result<Option<Hold>, AllocError>
        ensures { IfOk result (λ hold. hold ≡ find (is_barred who name.now mode) self.now) }
    {
        let bars = self.bar(who, name, mode)?;
        if !bars {
            return Ok(None);
        }
        for hold in self.rows.values() {
            if is_barred(who, name, mode, hold) {
                return Ok(Some(hold.clone()?));
            }
        }
        Ok(None)
    }

    /// Whether the holder has this name in this mode.
    pub fn have(&self, who: Who, name: &KeyBytes, mode: Mode) -> bool
        ensures { result ≡ holds_it who name.now mode self.now }
    {
        lane_number(&self.rows, self.names.numbers(name), who, name, mode).is_some()
    }

    /// How many the holder has of this name in this mode.
    pub fn count(&self, who: Who, name: &KeyBytes, mode: Mode) -> u32
        requires { held_count who name.now mode self.now < 2 ^ 32 }
        ensures { result ≡ held_count who name.now mode self.now }
    {
        let numbers = self.names.numbers(name);
        let mut total = 0;
        for number in numbers {
            total += lane_count(&self.rows, *number, who, name, mode);
        }
        total
    }

    /// So many more of a holder's name in a mode as the hold has. Out of memory, nothing changes.
    pub fn raise(&mut self, hold: Hold) -> Result<(), AllocError>
        requires room { held_count hold.who hold.name hold.mode self.old + hold.count < 2 ^ 32 }
        ensures ok { OnOk result (self.new ≡ raised hold.who hold.name hold.mode hold.count hold.at self.old) }
        ensures err { OnErr result (self.new ≡ self.old) }
    {
        let numbers = self.names.numbers(&hold.name);
        let Some(number) = lane_number(&self.rows, numbers, hold.who, &hold.name, hold.mode) else {
            return self.push(hold);
        };
        let Some(held) = self.rows.get_mut(&number) else {
            return Ok(());
        };
        held.count += hold.count;
        Ok(())
    }

    /// One more hold as the last. Out of memory, nothing changes. Past the greatest number it answers as where there
    /// is no memory.
    fn push(&mut self, hold: Hold) -> Result<(), AllocError>
        ensures ok { OnOk result (self.new ≡ self.old ++ hold ∷ []) }
        ensures err { OnErr result (self.new ≡ self.old) }
    {
        if self.next == u64::MAX {
            return Err(AllocError);
        }
        let name = hold.name.clone()?;
        push_row(&mut self.rows, &mut self.names, self.next, name, hold)?;
        self.next += 1;
        Ok(())
    }

    /// One less of a holder's name in a mode.
    pub fn lower(&mut self, who: Who, name: &KeyBytes, mode: Mode)
        ensures { self.new ≡ lowered who name.now mode self.old }
    {
        let numbers = self.names.numbers(name);
        let Some(number) = lane_number(&self.rows, numbers, who, name, mode) else {
            return;
        };
        let Some(hold) = self.rows.get_mut(&number) else {
            return;
        };
        if hold.count != 1 {
            hold.count = hold.count.saturating_sub(1);
            return;
        }
        self.rows.remove(&number);
        self.names.remove(name, number);
    }

    /// Gives up all that a session has.
    pub fn drop_session(&mut self, session: u64)
        ensures { self.new ≡ filter (is_hold_elsewhere session) self.old }
    {
        self.rows
            .retain(|_number, hold| hold.who.session != session);
        self.names.keep_rows(&self.rows);
    }
}

/// The first of these numbers whose hold is a holder's, of this name in this mode.
fn lane_number(
    rows: &BTreeMap<u64, Hold>,
    numbers: &[u64],
    who: Who,
    name: &KeyBytes,
    mode: Mode,
) -> Option<u64>
    ensures { result ≡ find (passes_at (is_lane who name.now mode) rows.now.entries) numbers.now }
{
    numbers.iter().copied().find(|number| match rows.get(number) {
        Some(hold) => is_lane(who, name, mode, hold),
        None => false,
    })
}

/// How many the hold with this number adds to what a holder has of this name in this mode.
fn lane_count(rows: &BTreeMap<u64, Hold>, number: u64, who: Who, name: &KeyBytes, mode: Mode) -> u32
    ensures { result ≡ weight_at (count_in who name.now mode) rows.now.entries number }
{
    match rows.get(&number) {
        Some(hold) if is_lane(who, name, mode, hold) => hold.count,
        _ => 0,
    }
}
