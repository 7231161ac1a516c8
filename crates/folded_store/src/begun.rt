ghost use Rattle.std.specs.Prelude.{◌≡◌, ◌≢◌, [], ◌∷◌, Some, OnOk, OnErr, length, filter};
ghost use Rattle.std.specs.List.{position};
ghost use Rattle.plain_orders.specs.Fold.{is_it, is_begun, beginning, noted, undo_in, ended};
ghost use Rattle.folded_store.specs.Undos.{undo_of};
ghost use Rattle.folded_store.specs.Transactions.{is_of, first_undo, without_first};

use crate::open_transaction::{OpenTransaction, TransactionName};
use crate::undo_item::UndoItem;
use crate::undo_list::UndoList;
use std::alloc::{AllocError, Global};
use std::marker::Model;

/// The open transactions. Contracts see them as the list, the latest begun first.
#[derive(Drop)]
pub struct Begun {
    items: Vec<OpenTransaction>,
}

impl Model for Begun {
    ghost use Rattle.std.specs.Prelude.{List};
    ghost use Rattle.plain_orders.specs.Fold.{Transaction};

    ghost Value = { List Transaction };

    ghost view = { λ b. b.items.items };
}

impl Begun {
    pub fn new(alloc: Global) -> Begun
        ensures { result ≡ [] }
    {
        Begun {
            items: Vec::new(alloc),
        }
    }

    /// Whether the transaction is open.
    pub fn is_begun(&self, name: TransactionName) -> bool
        ensures { result ≡ is_begun name.session name.job name.txn self.now }
    {
        self.items.iter().any(|transaction| transaction.is(name))
    }

    /// How many of the session are open.
    pub fn count(&self, session: u64) -> usize
        ensures { result ≡ length (filter (is_of session) self.now) }
    {
        self.items
            .iter()
            .filter(|transaction| transaction.is_of(session))
            .count()
    }

    /// Where the transaction stands.
    fn place_of(&self, name: TransactionName) -> Option<usize>
        ensures { result ≡ position (is_it name.session name.job name.txn) self.now }
    {
        self.items
            .iter()
            .position(|transaction| transaction.is(name))
    }

    /// Where the latest begun one of the session stands.
    fn place_of_latest(&self, session: u64) -> Option<usize>
        ensures { result ≡ position (is_of session) self.now }
    {
        self.items
            .iter()
            .position(|transaction| transaction.is_of(session))
    }

    /// Notes an item in its transaction, which it begins if it is not open. Out of memory, it is let go.
    pub fn note(
        &mut self,
        alloc: Global,
        name: TransactionName,
        item: UndoItem,
    ) -> Result<(), AllocError>
        requires { name.txn ≢ 0 }
        ensures ok { OnOk result (self.new ≡ noted name.session name.job name.txn (Some (undo_of item)) self.old) }
        ensures err { OnErr result (self.new ≡ self.old) }
    {
        match self.place_of(name) {
            Some(place) => self.items[place].push(item),
            None => self.begin(alloc, name, item),
        }
    }

    /// Begins a transaction with its first item. Out of memory, it is let go.
    fn begin(
        &mut self,
        alloc: Global,
        name: TransactionName,
        item: UndoItem,
    ) -> Result<(), AllocError>
        ensures ok { OnOk result (self.new ≡ beginning name.session name.job name.txn (undo_of item) ∷ self.old) }
        ensures err { OnErr result (self.new ≡ self.old) }
    {
        let mut transaction = OpenTransaction::new(alloc, name);
        transaction.push(item)?;
        self.items.insert(0, transaction)?;
        Ok(())
    }

    /// Ends a transaction, and answers what it would put back.
    pub fn end(&mut self, alloc: Global, name: TransactionName) -> UndoList
        ensures undo { result ≡ undo_in name.session name.job name.txn self.old }
        ensures ended { self.new ≡ ended name.session name.job name.txn self.old }
    {
        match self.place_of(name) {
            None => UndoList::new(alloc),
            Some(place) => {
                let undo = self.items.remove(place).into_undo();
                self.items.retain(|transaction| !transaction.is(name));
                undo
            }
        }
    }

    /// Ends the latest begun transaction of a session, if one is open, and answers what it would put back.
    pub fn end_latest(&mut self, session: u64) -> Option<UndoList>
        ensures undo { result ≡ first_undo session self.old }
        ensures rest { self.new ≡ without_first session self.old }
    {
        match self.place_of_latest(session) {
            None => None,
            Some(place) => Some(self.items.remove(place).into_undo()),
        }
    }
}
