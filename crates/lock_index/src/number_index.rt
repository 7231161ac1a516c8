ghost use Rattle.std.specs.Prelude.{◌≡◌, [], ◌∷◌, ◌++◌, OnOk, OnErr};
ghost use Rattle.std.specs.List.{filter};
ghost use Rattle.lock_index.specs.IndexWords.{numbers_at, PutsAt, is_other, KeepsRows};

use crate::numbers::Numbers;
use std::alloc::{AllocError, Global};
use std::collections::BTreeMap;
use std::marker::Model;

/// Numbers by keys. Contracts see it as the list of the keys, each with its numbers in the order in which they came.
#[derive(Drop)]
pub struct NumberIndex<K: Ord> {
    pub(crate) places: BTreeMap<K, Numbers>,
    alloc: Global,
}

impl<K: Ord> Model for NumberIndex<K> {
    ghost use Rattle.std.specs.Prelude.{ℕ, List};

    ghost Value = { List (K × List ℕ) };

    ghost view = { λ i. i.places.entries };
}

impl<K: Ord + Drop> NumberIndex<K> {
    /// No numbers. It takes no memory.
    pub fn new(alloc: Global) -> NumberIndex<K>
        ensures { result ≡ [] }
    {
        NumberIndex {
            places: BTreeMap::new(alloc),
            alloc,
        }
    }

    /// The numbers at a key.
    pub fn numbers(&self, key: &K) -> &[u64]
        ensures { result.now ≡ numbers_at K.cmp key.now self.now }
    {
        match self.places.get(key) {
            Some(numbers) => numbers.as_slice(),
            None => &[],
        }
    }

    /// One more number at a key, as the last. Out of memory, nothing changes.
    pub fn add(&mut self, key: K, number: u64) -> Result<(), AllocError>
        ensures ok { OnOk result (PutsAt K.cmp key (numbers_at K.cmp key self.old ++ number ∷ []) self.old self.new) }
        ensures err { OnErr result (self.new ≡ self.old) }
    {
        if let Some(numbers) = self.places.get_mut(&key) {
            numbers.push(number)?;
            return Ok(());
        }
        let numbers = Numbers::one(self.alloc, number)?;
        self.places.insert(key, numbers)?;
        Ok(())
    }

    /// A number at a key goes.
    pub fn remove(&mut self, key: &K, number: u64)
        ensures { PutsAt K.cmp key.now (filter (is_other number) (numbers_at K.cmp key.now self.old)) self.old self.new }
    {
        let Some(numbers) = self.places.get_mut(key) else {
            return;
        };
        numbers.remove(number);
        if numbers.as_slice().is_empty() {
            self.places.remove(key);
        }
    }

    /// The numbers at a key go.
    pub fn take(&mut self, key: &K) -> Vec<u64>
        ensures value { result.items ≡ numbers_at K.cmp key.now self.old }
        ensures rest { PutsAt K.cmp key.now [] self.old self.new }
    {
        match self.places.remove(key) {
            Some(numbers) => numbers.into_vec(),
            None => Vec::new(self.alloc),
        }
    }

    /// The numbers that have no row go.
    pub fn keep_rows<T>(&mut self, rows: &BTreeMap<u64, T>)
        ensures { KeepsRows K.cmp rows.now.entries self.old self.new }
    {
        self.places.retain(|_key, numbers| {
            numbers.keep_rows(rows);
            true
        });
        self.places
            .retain(|_key, numbers| !numbers.as_slice().is_empty());
    }
}
