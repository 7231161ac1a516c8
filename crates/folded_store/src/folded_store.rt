ghost use Rattle.std.specs.Prelude.{◌≡◌, ◌≢◌, ◌≤◌, [], Some, None, OnOk, OnErr, IfOk, IfSome, IsTrue, true, length, filter, map};
ghost use Rattle.std.specs.Option.{option_copied};
ghost use Rattle.std.specs.List.{list_any};
ghost use Rattle.std.specs.declared.cmp.Ordering.TheVariants.{Less};
ghost use Rattle.subscript_keys.specs.Key.{IsKey, IsSub};
ghost use Rattle.plain_orders.specs.declared.entry.Entry.TheVariants.{Closed};
ghost use Rattle.plain_orders.specs.declared.sum.Sum.TheVariants.{Nothing};
ghost use Rattle.plain_orders.specs.PairMap.{key_cmp, value_at, within, is_under, put, remove_under, pairs_under};
ghost use Rattle.plain_orders.specs.Fold.{OldValue, OldPairs, nothing_folded, sum_with, with_sum, op_sum, op_after, undo_of as undo_of_op, all_undone, undo_in, is_begun, noted, ended, fold_step};
ghost use Rattle.plain_orders.specs.Ordered.{KeyMay, SetMay, OpMay};
ghost use Rattle.plain_orders.specs.Keys.{HasKeys};
ghost use Rattle.plain_orders.specs.Answers.{entry_sum, data_at, is_descendant, next_key, IsSubIn};
ghost use Rattle.plain_orders.specs.Spans.{undo_span, session_spans, entry_spans};
ghost use Rattle.plain_programs.specs.Search.{descendant_behind};
ghost use Rattle.end_words.specs.Runs.{covers, pairs_of};
ghost use Rattle.block_bytes.specs.Blocks.{block_bytes, IsBlockRun};
ghost use Rattle.block_tree.specs.TreeWords.{end_of_keys, all_keys, FitsOneBlock};
ghost use Rattle.folded_store.specs.Limits.{EntryFits};
ghost use Rattle.folded_store.specs.Transactions.{is_of, first_undo, IsOutside};

use crate::begun::Begun;
use crate::changing::remove_node;
use crate::open_transaction::TransactionName;
use crate::undo_item::UndoItem;
use crate::undoing::undo_all;
use block_tree::PairTable;
use plain_orders::{Applied, Entry, Op, Spans, Sum};
use plain_programs::{
    data_code, decimal_value, end_of_child, op_spans, sub_behind, sum_of, whole_of,
};
use std::alloc::{AllocError, Global};
use std::marker::Model;
use subscript_keys::{KeyBytes, Run, Sub, ValueBytes};

/// The pairs that a list of entries makes, and the transactions that are open after it. Contracts see it as the fold of
/// that list.
#[derive(Drop)]
pub struct FoldedStore<P: PairTable> {
    pairs: P,
    begun: Begun,
}

impl<P: PairTable> Model for FoldedStore<P> {
    ghost use Rattle.plain_orders.specs.Fold.{Folded};
    ghost use Rattle.folded_store.specs.Limits.{FoldedFits};

    ghost Value = { Folded };

    ghost view = { λ s. record { pairs = P.pairs s.pairs; begun = s.begun } };

    ghost invariant = { λ s. FoldedFits (record { pairs = P.pairs s.pairs; begun = s.begun }) };
}

impl<P: PairTable> FoldedStore<P> {
    /// Of no entry, over a table with no pair.
    pub fn over(alloc: Global, pairs: P) -> FoldedStore<P>
        requires { P.pairs pairs ≡ [] }
        ensures { result ≡ nothing_folded }
    {
        FoldedStore {
            pairs,
            begun: Begun::new(alloc),
        }
    }

    /// How many nodes have a value.
    pub fn len(&self) -> usize
        ensures { result ≡ length self.now.pairs }
    {
        self.pairs.len()
    }

    /// The value of the node with this key.
    pub fn get(&self, key: &KeyBytes) -> Option<&ValueBytes>
        ensures { option_copied result ≡ value_at self.now.pairs key.now }
    {
        self.pairs.get(key)
    }

    /// What stands at and below the node with this key: 1 for a value and 10 for descendants, both, or 0.
    pub fn shape(&self, key: &KeyBytes) -> u8
        ensures { result ≡ data_at self.now.pairs key.now }
    {
        data_code(self.get(key).is_some(), self.has_descendants(key))
    }

    /// Whether a descendant of the node has a value.
    #[tactic(auto, using(plain_programs::proofs::SearchLemmas::under_itself))]
    fn has_descendants(&self, node: &KeyBytes) -> bool
        ensures { result ≡ list_any (is_descendant node.now) self.now.pairs }
    {
        self.descendant_behind(node, node).is_some()
    }

    /// The next subscript below the parent: that of its first descendant, or of its first descendant after
    /// this subscript with all that is below it. None where there is no such descendant.
    pub fn next_sub(
        &self,
        alloc: Global,
        parent: &KeyBytes,
        sub: Option<&Sub>,
    ) -> Result<Option<Sub>, AllocError>
        requires parent { IsKey parent.now }
        requires sub { IfSome (option_copied sub) IsSub }
        ensures { IfOk result (λ found. IsSubIn parent.now
            (next_key self.now.pairs parent.now (option_copied sub.entry)) found) }
    {
        match self.next_key(alloc, parent, sub)? {
            None => Ok(None),
            Some(key) => sub_behind(alloc, parent, key),
        }
    }

    /// The key of that descendant.
    #[tactic(auto, using(plain_programs::proofs::SearchLemmas::under_itself, plain_programs::proofs::KeyLemmas::under_end))]
    fn next_key(
        &self,
        alloc: Global,
        parent: &KeyBytes,
        sub: Option<&Sub>,
    ) -> Result<Option<&KeyBytes>, AllocError>
        requires parent { IsKey parent.now }
        requires sub { IfSome (option_copied sub) IsSub }
        ensures value { IfOk result (λ key. option_copied key
            ≡ next_key self.now.pairs parent.now (option_copied sub.entry)) }
        ensures keys { OnOk result (HasKeys self.now.pairs) }
    {
        match sub {
            None => Ok(self.descendant_behind(parent, parent)),
            Some(sub) => {
                let end = end_of_child(alloc, parent, sub)?;
                Ok(self.descendant_behind(parent, &end))
            }
        }
    }

    /// The first key of the node's descendants that stands after these bytes.
    fn descendant_behind(&self, node: &KeyBytes, bytes: &KeyBytes) -> Option<&KeyBytes>
        requires { IsTrue (is_under node.now bytes.now) }
        ensures value { option_copied result ≡ descendant_behind self.now.pairs node.now bytes.now }
        ensures keys { HasKeys self.now.pairs }
    {
        let (key, _value) = self.pairs.next(bytes)?;
        if !key.as_slice().starts_with(node.as_slice()) {
            return None;
        }
        Some(key)
    }

    /// A run that holds the key: its span and all pairs in it. While all pairs fit one block, it holds all of them.
    pub fn run_for(&self, key: &KeyBytes) -> Result<Run, AllocError>
        requires { key_cmp key.now end_of_keys ≡ Less }
        ensures covers { IfOk result (λ run. covers key.now run ≡ true) }
        ensures pairs { IfOk result (λ run. pairs_of run ≡ within self.now.pairs run.span) }
        ensures block { IfOk result (λ run. IsBlockRun run) }
        ensures fits { IfOk result (λ run. length (block_bytes run) ≤ 8192) }
        ensures whole { FitsOneBlock self.now.pairs → IfOk result (λ run. run.span ≡ all_keys) }
    {
        self.pairs.run_for(key)
    }

    /// Whether the transaction is open.
    pub fn is_begun(&self, name: TransactionName) -> bool
        ensures { result ≡ is_begun name.session name.job name.txn self.now.begun }
    {
        self.begun.is_begun(name)
    }

    /// How many transactions of the session are open.
    pub fn open_txns(&self, session: u64) -> usize
        ensures { result ≡ length (filter (is_of session) self.now.begun) }
    {
        self.begun.count(session)
    }

    /// Takes one entry more. Out of memory, one outside transactions changes nothing, and of another a part may be done.
    pub fn apply(&mut self, alloc: Global, entry: &Entry) -> Result<Applied, AllocError>
        requires { EntryFits entry.now }
        ensures next { OnOk result (self.new ≡ fold_step self.old entry.now) }
        ensures spans { IfOk result (λ applied. applied.spans ≡ entry_spans self.old entry.now) }
        ensures sum { IfOk result (λ applied. applied.sum ≡ entry_sum self.old.pairs entry.now) }
        ensures err { OnErr result (IsOutside self.old.begun entry.now → self.new ≡ self.old) }
    {
        match entry {
            Entry::Epoch { .. } | Entry::Opened { .. } => Ok(without_sum(Spans::new(alloc))),
            Entry::Closed { session } => Ok(without_sum(self.close(alloc, *session)?)),
            Entry::Update {
                session,
                job,
                txn,
                op,
                ..
            } => {
                let spans = op_spans(alloc, op)?;
                let sum = self.update(alloc, named(*session, *job, *txn), op)?;
                Ok(Applied { spans, sum })
            }
            Entry::Commit {
                session,
                job,
                txn,
                ..
            } => {
                self.begun.end(alloc, named(*session, *job, *txn));
                Ok(without_sum(Spans::new(alloc)))
            }
            Entry::Rollback {
                session,
                job,
                txn,
                ..
            } => {
                let spans = self.roll_back(alloc, named(*session, *job, *txn))?;
                Ok(without_sum(spans))
            }
        }
    }

    /// Rolls back all open transactions of a session, the latest begun first, and answers the spans in which that
    /// changes something. Out of memory, a part of it may be done.
    fn close(&mut self, alloc: Global, session: u64) -> Result<Spans, AllocError>
        ensures next { OnOk result (self.new ≡ fold_step self.old (Closed session)) }
        ensures spans { IfOk result (λ spans. spans ≡ session_spans session self.old.begun) }
        ensures some { OnErr result (first_undo session self.old.begun ≢ None) }
    {
        let mut spans = Spans::new(alloc);
        while let Some(undo) = self.begun.end_latest(session) {
            undo_all(alloc, &mut self.pairs, undo, &mut spans)?;
        }
        Ok(spans)
    }

    /// Rolls back a transaction, and answers the spans in which that changes something. Out of memory, a part of it may
    /// be done.
    fn roll_back(&mut self, alloc: Global, name: TransactionName) -> Result<Spans, AllocError>
        ensures pairs { OnOk result (self.new.pairs
            ≡ all_undone self.old.pairs (undo_in name.session name.job name.txn self.old.begun)) }
        ensures begun { OnOk result (self.new.begun ≡ ended name.session name.job name.txn self.old.begun) }
        ensures spans { IfOk result (λ spans. spans
            ≡ map undo_span (undo_in name.session name.job name.txn self.old.begun)) }
        ensures some { OnErr result (is_begun name.session name.job name.txn self.old.begun ≡ true) }
    {
        let undo = self.begun.end(alloc, name);
        let mut spans = Spans::new(alloc);
        undo_all(alloc, &mut self.pairs, undo, &mut spans)?;
        Ok(spans)
    }

    /// Does an operation, and notes what its transaction would put back. Out of memory, a part of it may be done, but outside
    /// transactions nothing changes.
    fn update(&mut self, alloc: Global, name: TransactionName, op: &Op) -> Result<Sum, AllocError>
        requires { OpMay name.txn op.now }
        ensures pairs { OnOk result (self.new.pairs ≡ op_after self.old.pairs op.now) }
        ensures begun { OnOk result (self.new.begun
            ≡ noted name.session name.job name.txn (undo_of_op self.old.pairs op.now) self.old.begun) }
        ensures sum { IfOk result (λ sum. sum ≡ op_sum self.old.pairs op.now) }
        ensures err { OnErr result (name.txn ≡ 0 → self.new ≡ self.old) }
    {
        match op {
            Op::Set { key, value } => {
                self.set(alloc, name, key, value)?;
                Ok(Sum::Nothing)
            }
            Op::Kill { key } => {
                self.kill(alloc, name, key)?;
                Ok(Sum::Nothing)
            }
            Op::Add { key, amount } => self.add(alloc, key, *amount),
        }
    }

    /// Sets a node.
    #[tactic(auto, using(block_tree::proofs::EndLemmas::key_below))]
    fn set(
        &mut self,
        alloc: Global,
        name: TransactionName,
        key: &KeyBytes,
        value: &ValueBytes,
    ) -> Result<(), AllocError>
        requires { SetMay key.now value.now }
        ensures pairs { OnOk result (self.new.pairs ≡ put self.old.pairs key.now value.now) }
        ensures begun { OnOk result (self.new.begun ≡ noted name.session name.job name.txn
            (Some (OldValue key.now (value_at self.old.pairs key.now))) self.old.begun) }
        ensures err { OnErr result (name.txn ≡ 0 → self.new ≡ self.old) }
    {
        let node = key.clone()?;
        let text = value.clone()?;
        let old = self.pairs.set(node, text)?;
        if name.txn == 0 {
            return Ok(());
        }
        let node = key.clone()?;
        let item = UndoItem::OldValue {
            key: node,
            value: old,
        };
        self.begun.note(alloc, name, item)
    }

    /// Kills a node with its descendants.
    fn kill(
        &mut self,
        alloc: Global,
        name: TransactionName,
        key: &KeyBytes,
    ) -> Result<(), AllocError>
        requires { KeyMay key.now }
        ensures pairs { OnOk result (self.new.pairs ≡ remove_under self.old.pairs key.now) }
        ensures begun { OnOk result (self.new.begun ≡ noted name.session name.job name.txn
            (Some (OldPairs key.now (pairs_under self.old.pairs key.now))) self.old.begun) }
        ensures err { OnErr result (name.txn ≡ 0 → self.new ≡ self.old) }
    {
        let pairs = remove_node(alloc, &mut self.pairs, key)?;
        if name.txn == 0 {
            return Ok(());
        }
        let node = key.clone()?;
        let item = UndoItem::OldPairs { key: node, pairs };
        self.begun.note(alloc, name, item)
    }

    /// What an increment of a node would do.
    fn sum(&self, key: &KeyBytes, amount: i64) -> Sum
        ensures { result ≡ sum_with (value_at self.now.pairs key.now) amount }
    {
        match self.get(key) {
            None => sum_of(0, amount),
            Some(value) => match whole_of(value.as_slice()) {
                None => Sum::NotWhole,
                Some(number) => sum_of(number, amount),
            },
        }
    }

    /// Increments a node.
    #[tactic(auto, using(block_tree::proofs::EndLemmas::key_below, crate::proofs::FitLemmas::sum_text_fits))]
    fn add(&mut self, alloc: Global, key: &KeyBytes, amount: i64) -> Result<Sum, AllocError>
        requires { KeyMay key.now }
        ensures sum { IfOk result (λ sum. sum ≡ sum_with (value_at self.old.pairs key.now) amount) }
        ensures pairs { IfOk result (λ sum. self.new.pairs ≡ with_sum self.old.pairs key.now sum) }
        ensures begun { OnOk result (self.new.begun ≡ self.old.begun) }
        ensures err { OnErr result (self.new ≡ self.old) }
    {
        let sum = self.sum(key, amount);
        if let Sum::Whole(number) = sum {
            let node = key.clone()?;
            let value = decimal_value(alloc, number)?;
            self.pairs.set(node, value)?;
        }
        Ok(sum)
    }
}

/// The name of a transaction.
fn named(session: u64, job: u16, txn: u32) -> TransactionName
    ensures { result ≡ record { session = session; job = job; txn = txn } }
{
    TransactionName { session, job, txn }
}

/// What an entry did that is no increment.
fn without_sum(spans: Spans) -> Applied
    ensures { result ≡ record { spans = spans; sum = Nothing } }
{
    Applied {
        spans,
        sum: Sum::Nothing,
    }
}
