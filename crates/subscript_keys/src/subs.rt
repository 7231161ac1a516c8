ghost use Rattle.std.specs.Prelude.{◌≡◌, [], ◌∷◌, ◌++◌, OnOk, OnErr};

use crate::sub::Sub;
use std::alloc::{AllocError, Global};
use std::marker::Model;

/// The subscripts of a node, from the left. Contracts see them as the list.
#[derive(Debug, Drop)]
pub struct Subs {
    items: Vec<Sub>,
}

impl Model for Subs {
    ghost use Rattle.std.specs.Prelude.{List};
    ghost use Rattle.subscript_keys.specs.declared.sub.Sub.{Sub};

    ghost Value = { List Sub };

    ghost view = { λ l. l.items.items };
}

impl Subs {
    pub fn new(alloc: Global) -> Subs
        ensures { result ≡ [] }
    {
        Subs {
            items: Vec::new(alloc),
        }
    }

    pub fn from_vec(items: Vec<Sub>) -> Subs
        ensures { result ≡ items.items }
    {
        Subs { items }
    }

    pub fn into_vec(self) -> Vec<Sub>
        ensures { result.items ≡ self }
    {
        let Subs { items } = self;
        items
    }

    pub fn as_slice(&self) -> &[Sub]
        ensures { result.now ≡ self.now }
    {
        self.items.as_slice()
    }

    /// Puts one more at the end. Out of memory it is dropped.
    pub fn push(&mut self, item: Sub) -> Result<(), AllocError>
        ensures ok { OnOk result (self.new ≡ self.old ++ item ∷ []) }
        ensures err { OnErr result (self.new ≡ self.old) }
    {
        self.items.push(item)?;
        Ok(())
    }
}
