ghost use Rattle.std.specs.Prelude.{◌≡◌, ◌<◌, ◌≤◌, ◌+◌, [], ◌∷◌, length, drop, IfOk, OnOk, OnErr};
ghost use Rattle.std.specs.declared.cmp.Ordering.TheVariants.{Less};
ghost use Rattle.plain_orders.specs.PairMap.{key_cmp};
ghost use Rattle.block_tree.specs.TreeWords.{all_keys, end_of_keys};
ghost use Rattle.block_tree.specs.LeafWords.{begin_of, cut_at, first_bytes, united, EdgesRise, IsPlace};

use crate::leaf::Leaf;
use std::alloc::{AllocError, Global};
use std::marker::Model;
use subscript_keys::{KeyBytes, Span};

/// The leaves, by where they begin. Contracts see the list of them.
#[derive(Drop)]
pub struct Leaves {
    items: Vec<Leaf>,
    /// Where the last one ends.
    end: KeyBytes,
}

impl Model for Leaves {
    ghost use Rattle.std.specs.Prelude.{◌≡◌, List};
    ghost use Rattle.block_tree.specs.declared.leaf.Leaf.{Leaf};
    ghost use Rattle.block_tree.specs.TreeWords.{end_of_keys};

    ghost Value = { List Leaf };

    ghost view = { λ l. l.items.items };

    ghost invariant = { λ l. l.end ≡ end_of_keys };
}

impl Leaves {
    /// One leaf over all keys, with no pair.
    pub fn new(alloc: Global) -> Result<Leaves, AllocError>
        ensures { IfOk result (λ leaves. leaves ≡ record { lo = []; bytes = 0 } ∷ []) }
    {
        let mut end = Vec::with_capacity(alloc, 1)?;
        end.push(0xFF)?;
        let mut items = Vec::with_capacity(alloc, 1)?;
        items.push(Leaf {
            lo: KeyBytes::from_vec(Vec::new(alloc)),
            bytes: 0,
        })?;
        Ok(Leaves {
            items,
            end: KeyBytes::from_vec(end),
        })
    }

    pub fn allocator(&self) -> Global {
        *self.items.allocator()
    }

    pub fn len(&self) -> usize
        ensures { result ≡ length self.now }
    {
        self.items.len()
    }

    /// Where the leaf at this place begins, and the one before it ends.
    pub fn begin(&self, at: usize) -> &KeyBytes
        ensures { result.now ≡ begin_of (drop at self.now) }
    {
        match self.items.get(at) {
            Some(leaf) => &leaf.lo,
            None => &self.end,
        }
    }

    /// Where the leaf at this place ends.
    pub fn end(&self, at: usize) -> &KeyBytes
        requires { at < length self.now }
        ensures { result.now ≡ begin_of (drop (at + 1) self.now) }
    {
        match self.items.get(at + 1) {
            Some(next) => &next.lo,
            None => &self.end,
        }
    }

    /// The span of all leaves.
    pub fn whole_span(&self) -> Result<Span, AllocError>
        requires { begin_of self.now ≡ [] }
        ensures { IfOk result (λ span. span ≡ all_keys) }
    {
        Ok(Span {
            lo: self.begin(0).clone()?,
            hi: self.end.clone()?,
        })
    }

    /// How many bytes the pairs of the leaf at this place take at most.
    pub fn bytes(&self, at: usize) -> usize
        ensures { result ≡ first_bytes (drop at self.now) }
    {
        match self.items.get(at) {
            Some(leaf) => leaf.bytes,
            None => 0,
        }
    }

    /// The place of the leaf that holds the key. Behind all leaves it is the last.
    pub fn place_of(&self, key: &KeyBytes) -> usize
        requires rises { EdgesRise self.now }
        requires begins { begin_of self.now ≡ [] }
        ensures within { result < length self.now }
        ensures place { key_cmp key.now end_of_keys ≡ Less → IsPlace key.now self.now result }
    {
        self.items.partition_point(|leaf| leaf.lo <= *key) - 1
    }

    /// Cuts the leaf at a place at this key, and answers the place of the leaf that begins there, for which the same
    /// count of bytes holds. Out of memory, nothing changes.
    pub fn cut(&mut self, at: usize, key: KeyBytes) -> Result<usize, AllocError>
        requires { at < length self.old }
        ensures place { IfOk result (λ place. place ≡ at + 1) }
        ensures ok { OnOk result (self.new ≡ cut_at self.old at key) }
        ensures err { OnErr result (self.new ≡ self.old) }
    {
        let bytes = self.items[at].bytes;
        self.items.insert(at + 1, Leaf { lo: key, bytes })?;
        Ok(at + 1)
    }

    /// So many bytes are taken in the leaf at this place.
    pub fn set_bytes(&mut self, at: usize, bytes: usize)
        requires { at < length self.old }
        ensures { self.new ≡ united self.old at (at + 1) bytes }
    {
        self.items[at].bytes = bytes;
    }

    /// Makes one leaf of those from the first to the last.
    pub fn unite(&mut self, first: usize, last: usize, bytes: usize)
        requires order { first ≤ last }
        requires fits { last < length self.old }
        ensures { self.new ≡ united self.old first (last + 1) bytes }
    {
        self.items.drain(first + 1..last + 1);
        self.items[first].bytes = bytes;
    }
}
