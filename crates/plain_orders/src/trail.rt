ghost use Rattle.std.specs.Prelude.{◌≡◌, [], ◌∷◌, ◌++◌, OnOk, OnErr};

use crate::act::Act;
use std::alloc::{AllocError, Global};
use std::marker::Model;

/// The acts of a run, in their order. Contracts see it as the list.
#[derive(Drop)]
pub struct Trail {
    items: Vec<Act>,
}

impl Model for Trail {
    ghost use Rattle.std.specs.Prelude.{List};
    ghost use Rattle.plain_orders.specs.declared.act.Act.{Act};

    ghost Value = { List Act };

    ghost view = { λ l. l.items.items };
}

impl Trail {
    pub fn new(alloc: Global) -> Trail
        ensures { result ≡ [] }
    {
        Trail {
            items: Vec::new(alloc),
        }
    }

    pub fn from_vec(items: Vec<Act>) -> Trail
        ensures { result ≡ items.items }
    {
        Trail { items }
    }

    pub fn into_vec(self) -> Vec<Act>
        ensures { result.items ≡ self }
    {
        let Trail { items } = self;
        items
    }

    pub fn as_slice(&self) -> &[Act]
        ensures { result.now ≡ self.now }
    {
        self.items.as_slice()
    }

    /// Puts one more at the end; out of memory it is let go.
    pub fn push(&mut self, item: Act) -> Result<(), AllocError>
        ensures ok { OnOk result (self.new ≡ self.old ++ item ∷ []) }
        ensures err { OnErr result (self.new ≡ self.old) }
    {
        self.items.push(item)?;
        Ok(())
    }
}
