ghost use Rattle.std.specs.Prelude.{◌≡◌, [], OnOk, OnErr};
ghost use Rattle.plain_orders.specs.Fold.{is_it, with_undo};
ghost use Rattle.folded_store.specs.Undos.{undo_of};
ghost use Rattle.folded_store.specs.Transactions.{is_of, unbegun};

use crate::undo_item::UndoItem;
use crate::undo_list::UndoList;
use std::alloc::{AllocError, Global};
use std::marker::Model;

/// What a transaction is known by.
#[derive(Clone, Copy, Debug, PartialEq, Eq)]
pub struct TransactionName {
    pub session: u64,
    pub job: u16,
    pub txn: u32,
}

/// An open transaction, with what it would put back. Contracts see it as one of a fold.
#[derive(Drop)]
pub struct OpenTransaction {
    name: TransactionName,
    undo: UndoList,
}

impl Model for OpenTransaction {
    ghost use Rattle.plain_orders.specs.Fold.{Transaction};

    ghost Value = { Transaction };

    ghost view = { λ t. record { session = t.name.session; job = t.name.job; txn = t.name.txn; undo = t.undo } };
}

impl OpenTransaction {
    /// With nothing to be put back.
    pub fn new(alloc: Global, name: TransactionName) -> OpenTransaction
        ensures { result ≡ unbegun name.session name.job name.txn }
    {
        OpenTransaction {
            name,
            undo: UndoList::new(alloc),
        }
    }

    /// Whether it has this name.
    pub fn is(&self, name: TransactionName) -> bool
        ensures { result ≡ is_it name.session name.job name.txn self.now }
    {
        self.name.session == name.session && self.name.job == name.job && self.name.txn == name.txn
    }

    /// Whether it is one of this session.
    pub fn is_of(&self, session: u64) -> bool
        ensures { result ≡ is_of session self.now }
    {
        self.name.session == session
    }

    /// Adds the newest item to be put back. Out of memory, it is let go.
    pub fn push(&mut self, item: UndoItem) -> Result<(), AllocError>
        ensures ok { OnOk result (self.new ≡ with_undo (undo_of item) self.old) }
        ensures err { OnErr result (self.new ≡ self.old) }
    {
        self.undo.push(item)
    }

    /// What is to be put back.
    pub fn into_undo(self) -> UndoList
        ensures { result ≡ self.undo }
    {
        let OpenTransaction { undo, .. } = self;
        undo
    }
}
