ghost use Rattle.std.specs.Prelude.{◌≡◌, [], ◌∷◌, ◌++◌, OnOk, OnErr};

use crate::pair::Pair;
use std::alloc::{AllocError, Global};
use std::marker::Model;

/// Pairs in the order of their keys. Contracts see them as the list.
#[derive(Drop)]
pub struct Pairs {
    items: Vec<Pair>,
}

impl Model for Pairs {
    ghost use Rattle.std.specs.Prelude.{List};
    ghost use Rattle.subscript_keys.specs.declared.pair.Pair.{Pair};

    ghost Value = { List Pair };

    ghost view = { λ l. l.items.items };
}

impl Pairs {
    pub fn new(alloc: Global) -> Pairs
        ensures { result ≡ [] }
    {
        Pairs {
            items: Vec::new(alloc),
        }
    }

    pub fn from_vec(items: Vec<Pair>) -> Pairs
        ensures { result ≡ items.items }
    {
        Pairs { items }
    }

    pub fn into_vec(self) -> Vec<Pair>
        ensures { result.items ≡ self }
    {
        let Pairs { items } = self;
        items
    }

    pub fn as_slice(&self) -> &[Pair]
        ensures { result.now ≡ self.now }
    {
        self.items.as_slice()
    }

    /// Puts one more at the end. Out of memory it is dropped.
    pub fn push(&mut self, item: Pair) -> Result<(), AllocError>
        ensures ok { OnOk result (self.new ≡ self.old ++ item ∷ []) }
        ensures err { OnErr result (self.new ≡ self.old) }
    {
        self.items.push(item)?;
        Ok(())
    }
}
