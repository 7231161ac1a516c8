ghost use Rattle.std.specs.Prelude.{◌≡◌, ◌≤◌, ◌+◌, [], ◌∷◌, true, map, length, IfOk, OnOk, OnErr};
ghost use Rattle.std.specs.Option.{option_copied, option_map};
ghost use Rattle.std.specs.declared.cmp.Ordering.TheVariants.{Less};
ghost use Rattle.subscript_keys.specs.declared.limits.TheConstants.{KEY_LIMIT, VALUE_LIMIT};
ghost use Rattle.plain_orders.specs.PairMap.{key_cmp, value_at, put, within, IsRising};
ghost use Rattle.end_words.specs.Runs.{contains, covers, pairs_of};
ghost use Rattle.block_bytes.specs.Blocks.{block_bytes, IsBlockRun};
ghost use Rattle.block_tree.specs.TreeWords.{as_pair, without, next_above, end_of_keys, all_keys, size, FitsOneBlock};

use crate::copying::{keys_in, pairs_in};
use crate::leaves::Leaves;
use crate::limits::WHOLE_ROOM;
use crate::making_room::make_room;
use crate::removing::remove_all;
use crate::sizes::{size_of, without_old};
use crate::tidying::tidy;
use std::alloc::{AllocError, Global};
use std::collections::BTreeMap;
use std::marker::Model;
use std::ops::Bound;
use subscript_keys::{KeyBytes, Pairs, Run, Span, ValueBytes};

/// The pairs of a store, in leaves. Contracts see it as the list of the pairs, which rises by their keys.
#[derive(Drop)]
pub struct BlockTree {
    pairs: BTreeMap<KeyBytes, ValueBytes>,
    leaves: Leaves,
    /// How many bytes all pairs take in a block.
    bytes: usize,
}

impl Model for BlockTree {
    ghost use Rattle.plain_orders.specs.PairMap.{Map};
    ghost use Rattle.block_tree.specs.LeafWords.{IsTree};

    ghost Value = { Map };

    ghost view = { λ t. t.pairs.entries };

    ghost invariant = { λ t. IsTree t.pairs.entries t.leaves t.bytes };
}

impl BlockTree {
    /// With no pair.
    pub fn new(alloc: Global) -> Result<BlockTree, AllocError>
        ensures { IfOk result (λ tree. tree ≡ []) }
    {
        let leaves = Leaves::new(alloc)?;
        Ok(BlockTree {
            pairs: BTreeMap::new(alloc),
            leaves,
            bytes: 0,
        })
    }

    /// How many pairs there are.
    pub fn len(&self) -> usize
        ensures value { result ≡ length self.now }
        ensures rises { IsRising self.now }
    {
        self.pairs.len()
    }

    /// The value of the node with this key.
    pub fn get(&self, key: &KeyBytes) -> Option<&ValueBytes>
        ensures { option_copied result ≡ value_at self.now key.now }
    {
        self.pairs.get(key)
    }

    /// The pair with the least key above this one.
    pub fn next(&self, key: &KeyBytes) -> Option<(&KeyBytes, &ValueBytes)>
        ensures { option_map (λ p. (p.0.now, p.1.now)) result ≡ next_above self.now key.now }
    {
        let above = (Bound::Excluded(key), Bound::Unbounded);
        self.pairs.range(above).next()
    }

    /// The leaf that holds the key, whole: its span and its pairs. While all pairs fit one block, all of them.
    pub fn run_for(&self, key: &KeyBytes) -> Result<Run, AllocError>
        requires { key_cmp key.now end_of_keys ≡ Less }
        ensures covers { IfOk result (λ run. covers key.now run ≡ true) }
        ensures pairs { IfOk result (λ run. pairs_of run ≡ within self.now run.span) }
        ensures block { IfOk result (λ run. IsBlockRun run) }
        ensures fits { IfOk result (λ run. length (block_bytes run) ≤ 8192) }
        ensures whole { FitsOneBlock self.now → IfOk result (λ run. run.span ≡ all_keys) }
    {
        let alloc = self.leaves.allocator();
        let span = self.span_for(key)?;
        let pairs = pairs_in(alloc, &self.pairs, &span)?;
        Ok(Run { span, pairs })
    }

    /// The span of that leaf.
    fn span_for(&self, key: &KeyBytes) -> Result<Span, AllocError>
        requires { key_cmp key.now end_of_keys ≡ Less }
        ensures holds { IfOk result (λ span. contains span key.now ≡ true) }
        ensures fits { IfOk result (λ span. 7 + length span.lo + length span.hi + size (within self.now span) ≤ 8192) }
        ensures whole { FitsOneBlock self.now → IfOk result (λ span. span ≡ all_keys) }
    {
        if self.bytes <= WHOLE_ROOM {
            let span = self.leaves.whole_span()?;
            return Ok(span);
        }
        let at = self.leaves.place_of(key);
        Ok(Span {
            lo: self.leaves.begin(at).clone()?,
            hi: self.leaves.end(at).clone()?,
        })
    }

    /// Puts a pair in place of another with its key, whose value it answers. Out of memory, nothing changes. Past the
    /// greatest count of bytes it answers as where there is no memory.
    pub fn set(
        &mut self,
        key: KeyBytes,
        value: ValueBytes,
    ) -> Result<Option<ValueBytes>, AllocError>
        requires key { length key ≤ KEY_LIMIT }
        requires below { key_cmp key end_of_keys ≡ Less }
        requires value { length value ≤ VALUE_LIMIT }
        ensures old { IfOk result (λ old. old ≡ value_at self.old key) }
        ensures ok { OnOk result (self.new ≡ put self.old key value) }
        ensures err { OnErr result (self.new ≡ self.old) }
    {
        let needed = size_of(&key, &value);
        let bytes = self.bytes.checked_add(needed).ok_or(AllocError)?;
        let room = make_room(&self.pairs, &mut self.leaves, &key, needed)?;
        let key_bytes = key.as_slice().len();
        let old = self.pairs.insert(key, value)?;
        self.leaves.set_bytes(room.at, room.bytes);
        self.bytes = without_old(bytes, key_bytes, &old);
        Ok(old)
    }

    /// Removes the pairs of a span, and answers them in the order of their keys. Out of memory, nothing changes.
    pub fn kill_span(&mut self, span: &Span) -> Result<Pairs, AllocError>
        ensures removed { IfOk result (λ removed. removed ≡ map as_pair (within self.old span.now)) }
        ensures ok { OnOk result (self.new ≡ without self.old span.now) }
        ensures err { OnErr result (self.new ≡ self.old) }
    {
        let alloc = self.leaves.allocator();
        if span.lo >= span.hi {
            return Ok(Pairs::new(alloc));
        }
        let keys = keys_in(alloc, &self.pairs, span)?;
        let mut removed = Vec::with_capacity(alloc, keys.len())?;
        let bytes = self.bytes;
        remove_all(&mut self.pairs, &mut self.bytes, keys, &mut removed);
        let freed = bytes.saturating_sub(self.bytes);
        tidy(&self.pairs, &mut self.leaves, span, freed);
        Ok(Pairs::from_vec(removed))
    }
}
