ghost use Rattle.std.specs.Prelude.{◌≡◌, ◌≤◌, ◌+◌, [], true, length, nat_lt, IfOk};
ghost use Rattle.std.specs.declared.cmp.Ordering.TheVariants.{Less};
ghost use Rattle.plain_orders.specs.PairMap.{key_cmp, within};
ghost use Rattle.end_words.specs.Runs.{contains};
ghost use Rattle.block_tree.specs.TreeWords.{end_of_keys, all_keys, size, FitsOneBlock};

use crate::copying::{keys_in, pairs_in};
use crate::limits::WHOLE_ROOM;
use crate::pair_table::PairTable;
use crate::removing::remove_all;
use crate::sizes::{measure, size_of};
use block_bytes::BLOCK_LIMIT;
use std::alloc::{AllocError, Global};
use std::collections::BTreeMap;
use std::marker::Model;
use std::ops::Bound;
use subscript_keys::{KeyBytes, Pairs, Run, Span, ValueBytes};

/// Pairs that each call of `run_for` cuts anew, from their front, into runs that take as many of them as fit a block.
/// Contracts see them as the list of an ordered map.
#[derive(Drop)]
pub struct FlatPairs {
    pairs: BTreeMap<KeyBytes, ValueBytes>,
    alloc: Global,
}

impl Model for FlatPairs {
    ghost use Rattle.plain_orders.specs.PairMap.{Map};
    ghost use Rattle.block_tree.specs.FlatWords.{AreShort};

    ghost Value = { Map };

    ghost view = { λ f. f.pairs.entries };

    ghost invariant = { λ f. AreShort f.pairs.entries };
}

impl FlatPairs {
    /// With no pair.
    pub fn new(alloc: Global) -> FlatPairs
        ensures { result ≡ [] }
    {
        FlatPairs {
            pairs: BTreeMap::new(alloc),
            alloc,
        }
    }

    /// The span of the run that holds the key.
    fn span_for(&self, key: &KeyBytes) -> Result<Span, AllocError>
        requires { key_cmp key.now end_of_keys ≡ Less }
        ensures holds { IfOk result (λ span. contains span key.now ≡ true) }
        ensures fits { IfOk result (λ span. 7 + length span.lo + length span.hi + size (within self.now span) ≤ 8192) }
        ensures whole { FitsOneBlock self.now → IfOk result (λ span. span ≡ all_keys) }
    {
        let first = KeyBytes::from_vec(Vec::new(self.alloc));
        let end = end_of_keys(self.alloc)?;
        if measure(&self.pairs, &first, &end) <= WHOLE_ROOM {
            return span_of(&first, &end);
        }
        self.cut_for(first, &end, key)
    }

    /// The same where the pairs don't all fit one block: the first run begins at the empty key, and each other one at its first
    /// key.
    fn cut_for(&self, first: KeyBytes, end: &KeyBytes, key: &KeyBytes) -> Result<Span, AllocError>
        requires first { first ≡ [] }
        requires end { end.now ≡ end_of_keys }
        requires below { key_cmp key.now end_of_keys ≡ Less }
        ensures holds { IfOk result (λ span. contains span key.now ≡ true) }
        ensures fits { IfOk result (λ span. 7 + length span.lo + length span.hi + size (within self.now span) ≤ 8192) }
    {
        let mut lo = first;
        let mut before = 0;
        let mut last: Option<(&KeyBytes, usize)> = None;
        for (next, value) in self.pairs.iter() {
            if let Some((edge, bytes)) = last {
                if is_full(&lo, before + bytes, next) {
                    if key < edge {
                        return span_of(&lo, edge);
                    }
                    lo = edge.clone()?;
                    before = 0;
                }
                before += bytes;
            }
            last = Some((next, size_of(next, value)));
        }
        if let Some((edge, bytes)) = last {
            if is_full(&lo, before + bytes, end) {
                if key < edge {
                    return span_of(&lo, edge);
                }
                lo = edge.clone()?;
            }
        }
        span_of(&lo, end)
    }
}

impl PairTable for FlatPairs {
    ghost pairs = { λ f. f };

    fn len(&self) -> usize {
        self.pairs.len()
    }

    fn get(&self, key: &KeyBytes) -> Option<&ValueBytes> {
        self.pairs.get(key)
    }

    fn next(&self, key: &KeyBytes) -> Option<(&KeyBytes, &ValueBytes)> {
        let above = (Bound::Excluded(key), Bound::Unbounded);
        self.pairs.range(above).next()
    }

    fn run_for(&self, key: &KeyBytes) -> Result<Run, AllocError> {
        let span = self.span_for(key)?;
        let pairs = pairs_in(self.alloc, &self.pairs, &span)?;
        Ok(Run { span, pairs })
    }

    fn set(&mut self, key: KeyBytes, value: ValueBytes) -> Result<Option<ValueBytes>, AllocError> {
        let old = self.pairs.insert(key, value)?;
        Ok(old)
    }

    fn kill_span(&mut self, span: &Span) -> Result<Pairs, AllocError> {
        if span.lo >= span.hi {
            return Ok(Pairs::new(self.alloc));
        }
        let keys = keys_in(self.alloc, &self.pairs, span)?;
        let mut removed = Vec::with_capacity(self.alloc, keys.len())?;
        let mut bytes = 0;
        remove_all(&mut self.pairs, &mut bytes, keys, &mut removed);
        Ok(Pairs::from_vec(removed))
    }
}

/// The bytes behind the keys of all nodes.
fn end_of_keys(alloc: Global) -> Result<KeyBytes, AllocError>
    ensures { IfOk result (λ end. end ≡ end_of_keys) }
{
    let mut end = Vec::with_capacity(alloc, 1)?;
    end.push(0xFF)?;
    Ok(KeyBytes::from_vec(end))
}

/// Whether a block can't hold so many bytes of pairs between these two edges.
fn is_full(lo: &KeyBytes, bytes: usize, hi: &KeyBytes) -> bool
    requires { bytes ≤ 20000 }
    ensures { result ≡ nat_lt 8192 (7 + length lo.now + length hi.now + bytes) }
{
    let edges = lo.as_slice().len().saturating_add(hi.as_slice().len());
    edges.saturating_add(bytes + 7) > BLOCK_LIMIT
}

/// A span of copies.
fn span_of(lo: &KeyBytes, hi: &KeyBytes) -> Result<Span, AllocError>
    ensures { IfOk result (λ span. span ≡ record { lo = lo.now; hi = hi.now }) }
{
    Ok(Span {
        lo: lo.clone()?,
        hi: hi.clone()?,
    })
}
