ghost use Rattle.std.specs.Prelude.{◌≡◌, [], ◌∷◌, MatchOption, OnOk, OnErr};
ghost use Rattle.folded_store.specs.Undos.{undo_of};

use crate::undo_item::UndoItem;
use std::alloc::{AllocError, Global};
use std::marker::Model;

/// What a transaction would put back. Contracts see it as the list of the items, the newest first.
#[derive(Drop)]
pub struct UndoList {
    /// The newest last.
    items: Vec<UndoItem>,
}

impl Model for UndoList {
    ghost use Rattle.std.specs.Prelude.{List, map, reverse};
    ghost use Rattle.plain_orders.specs.Fold.{Undo};
    ghost use Rattle.folded_store.specs.Undos.{undo_of};

    ghost Value = { List Undo };

    ghost view = { λ l. reverse (map undo_of l.items.items) };
}

impl UndoList {
    pub fn new(alloc: Global) -> UndoList
        ensures { result ≡ [] }
    {
        UndoList {
            items: Vec::new(alloc),
        }
    }

    /// Adds the newest item. Out of memory, it is let go.
    pub fn push(&mut self, item: UndoItem) -> Result<(), AllocError>
        ensures ok { OnOk result (self.new ≡ undo_of item ∷ self.old) }
        ensures err { OnErr result (self.new ≡ self.old) }
    {
        self.items.push(item)?;
        Ok(())
    }

    /// Takes the newest item away.
    pub fn pop(&mut self) -> Option<UndoItem>
        ensures { MatchOption result (self.old ≡ []) (λ item. self.old ≡ undo_of item ∷ self.new) }
    {
        self.items.pop()
    }
}
