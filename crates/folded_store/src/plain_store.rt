ghost use Rattle.std.specs.Prelude.{◌≡◌, ◌≤◌, true, length, OnOk, OnErr, IfOk, IfSome};
ghost use Rattle.std.specs.Option.{option_copied};
ghost use Rattle.std.specs.declared.cmp.Ordering.TheVariants.{Less};
ghost use Rattle.subscript_keys.specs.Key.{IsKey, IsSub};
ghost use Rattle.plain_orders.specs.PairMap.{key_cmp, value_at, within};
ghost use Rattle.plain_orders.specs.Fold.{nothing_folded, fold_step};
ghost use Rattle.plain_orders.specs.Answers.{entry_sum, data_at, next_key, IsSubIn};
ghost use Rattle.plain_orders.specs.Spans.{entry_spans};
ghost use Rattle.end_words.specs.Runs.{covers, pairs_of};
ghost use Rattle.block_bytes.specs.Blocks.{block_bytes, IsBlockRun};
ghost use Rattle.block_tree.specs.TreeWords.{end_of_keys, all_keys, FitsOneBlock};
ghost use Rattle.folded_store.specs.Limits.{EntryFits};
ghost use Rattle.folded_store.specs.Transactions.{IsOutside};

use crate::folded_store::FoldedStore;
use block_tree::FlatPairs;
use plain_orders::{Applied, Entry};
use std::alloc::{AllocError, Global};
use std::marker::Model;
use subscript_keys::{KeyBytes, Run, Sub, ValueBytes};

/// The meaning of a list of entries, as a program: the pairs that they make stand in one flat list. Contracts see it as the fold of
/// that list.
#[derive(Drop)]
pub struct PlainStore {
    folded: FoldedStore<FlatPairs>,
}

impl Model for PlainStore {
    ghost use Rattle.plain_orders.specs.Fold.{Folded};

    ghost Value = { Folded };

    ghost view = { λ s. s.folded };
}

impl PlainStore {
    /// Of no entry.
    pub fn new(alloc: Global) -> PlainStore
        ensures { result ≡ nothing_folded }
    {
        PlainStore {
            folded: FoldedStore::over(alloc, FlatPairs::new(alloc)),
        }
    }

    /// How many nodes have a value.
    pub fn len(&self) -> usize
        ensures { result ≡ length self.now.pairs }
    {
        self.folded.len()
    }

    /// The value of the node with this key.
    pub fn get(&self, key: &KeyBytes) -> Option<&ValueBytes>
        ensures { option_copied result ≡ value_at self.now.pairs key.now }
    {
        self.folded.get(key)
    }

    /// What stands at and below the node with this key: 1 for a value and 10 for descendants, both, or 0.
    pub fn shape(&self, key: &KeyBytes) -> u8
        ensures { result ≡ data_at self.now.pairs key.now }
    {
        self.folded.shape(key)
    }

    /// The next subscript below the parent: that of its first descendant, or of its first descendant after
    /// this subscript with all that is below it. None where there is no such descendant.
    pub fn next_sub(
        &self,
        alloc: Global,
        parent: &KeyBytes,
        sub: Option<&Sub>,
    ) -> Result<Option<Sub>, AllocError>
        requires parent { IsKey parent.now }
        requires sub { IfSome (option_copied sub) IsSub }
        ensures { IfOk result (λ found. IsSubIn parent.now
            (next_key self.now.pairs parent.now (option_copied sub.entry)) found) }
    {
        self.folded.next_sub(alloc, parent, sub)
    }

    /// A run that holds the key: its span and all pairs in it. While all pairs fit one block, it holds all of them; else they
    /// are cut from their front into runs that each take as many as fit a block.
    pub fn run_for(&self, key: &KeyBytes) -> Result<Run, AllocError>
        requires { key_cmp key.now end_of_keys ≡ Less }
        ensures covers { IfOk result (λ run. covers key.now run ≡ true) }
        ensures pairs { IfOk result (λ run. pairs_of run ≡ within self.now.pairs run.span) }
        ensures block { IfOk result (λ run. IsBlockRun run) }
        ensures fits { IfOk result (λ run. length (block_bytes run) ≤ 8192) }
        ensures whole { FitsOneBlock self.now.pairs → IfOk result (λ run. run.span ≡ all_keys) }
    {
        self.folded.run_for(key)
    }

    /// Takes one entry more. Out of memory, one outside transactions changes nothing, and of another a part may be done.
    pub fn apply(&mut self, alloc: Global, entry: &Entry) -> Result<Applied, AllocError>
        requires { EntryFits entry.now }
        ensures next { OnOk result (self.new ≡ fold_step self.old entry.now) }
        ensures spans { IfOk result (λ applied. applied.spans ≡ entry_spans self.old entry.now) }
        ensures sum { IfOk result (λ applied. applied.sum ≡ entry_sum self.old.pairs entry.now) }
        ensures err { OnErr result (IsOutside self.old.begun entry.now → self.new ≡ self.old) }
    {
        self.folded.apply(alloc, entry)
    }
}
