ghost use Rattle.std.specs.Prelude.{◌≡◌};

use crate::noted::Noted;
use std::marker::Model;

/// Spans that their sessions are to drop, in the order in which they were noted. Contracts see it as the list of them.
#[derive(Drop)]
pub struct Drops {
    items: Vec<Noted>,
}

impl Model for Drops {
    ghost use Rattle.std.specs.Prelude.{List};
    ghost use Rattle.block_holders.specs.declared.noted.Noted.{Noted};

    ghost Value = { List Noted };

    ghost view = { λ l. l.items.items };
}

impl Drops {
    pub fn from_vec(items: Vec<Noted>) -> Drops
        ensures { result ≡ items.items }
    {
        Drops { items }
    }

    pub fn into_vec(self) -> Vec<Noted>
        ensures { result.items ≡ self }
    {
        let Drops { items } = self;
        items
    }

    pub fn as_slice(&self) -> &[Noted]
        ensures { result.now ≡ self.now }
    {
        self.items.as_slice()
    }
}
