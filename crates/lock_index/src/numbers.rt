ghost use Rattle.std.specs.Prelude.{◌≡◌, ◌==◌, [], ◌∷◌, ◌++◌, filter, nat_eq, OnOk, OnErr, IfOk};
ghost use Rattle.std.specs.List.{filter};
ghost use Rattle.std.specs.Vec.{vec_len};
ghost use Rattle.lock_index.specs.IndexWords.{is_other, has_row};

use std::alloc::{AllocError, Global};
use std::collections::BTreeMap;
use std::marker::Model;

/// Numbers in the order in which they came. Contracts see it as the list of them.
#[derive(Drop)]
pub struct Numbers {
    items: Vec<u64>,
}

impl Model for Numbers {
    ghost use Rattle.std.specs.Prelude.{ℕ, List};

    ghost Value = { List ℕ };

    ghost view = { λ n. n.items.items };
}

impl Numbers {
    /// One number.
    pub fn one(alloc: Global, number: u64) -> Result<Numbers, AllocError>
        ensures { IfOk result (λ numbers. numbers ≡ number ∷ []) }
    {
        let mut items = Vec::new(alloc);
        items.push(number)?;
        Ok(Numbers { items })
    }

    pub fn as_slice(&self) -> &[u64]
        ensures { result.now ≡ self.now }
    {
        self.items.as_slice()
    }

    pub fn into_vec(self) -> Vec<u64>
        ensures { result.items ≡ self }
    {
        let Numbers { items } = self;
        items
    }

    /// One more as the last. Out of memory, nothing changes.
    pub fn push(&mut self, number: u64) -> Result<(), AllocError>
        ensures ok { OnOk result (self.new ≡ self.old ++ number ∷ []) }
        ensures err { OnErr result (self.new ≡ self.old) }
    {
        self.items.push(number)?;
        Ok(())
    }

    /// The number goes.
    pub fn remove(&mut self, number: u64)
        ensures { self.new ≡ filter (is_other number) self.old }
    {
        self.items.retain(|other| *other != number);
    }

    /// The numbers that have no row go.
    pub fn keep_rows<T>(&mut self, rows: &BTreeMap<u64, T>)
        ensures { self.new ≡ filter (has_row rows.now.entries) self.old }
    {
        self.items.retain(|number| rows.contains_key(number));
    }
}
