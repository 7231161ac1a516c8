ghost use Rattle.lock_index.specs.IndexWords.{passes_at};
ghost use Rattle.lock_table.specs.LockWords.{is_barred};

use crate::conflicts::is_barred;
use crate::rows::{Hold, Who};
use lock_index::NumberTest;
use plain_orders::Mode;
use std::collections::BTreeMap;
use subscript_keys::KeyBytes;

/// The test whether the hold with a number bars a name in a mode.
#[derive(Drop)]
pub struct Barring<'a> {
    pub rows: &'a BTreeMap<u64, Hold>,
    pub who: Who,
    pub name: &'a KeyBytes,
    pub mode: Mode,
}

impl<'a> NumberTest for Barring<'a> {
    ghost passes = { λ b. passes_at (is_barred b.who b.name.now b.mode) b.rows.now.entries };

    fn passes(&self, number: u64) -> bool {
        match self.rows.get(&number) {
            Some(hold) => is_barred(self.who, self.name, self.mode, hold),
            None => false,
        }
    }
}
