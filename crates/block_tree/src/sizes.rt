ghost use Rattle.std.specs.Prelude.{◌≡◌, ◌≤◌, ◌+◌, ◌-◌, ◌^◌, min, length, IfSome};
ghost use Rattle.std.specs.declared.cmp.Ordering.TheVariants.{Less};
ghost use Rattle.subscript_keys.specs.declared.limits.TheConstants.{KEY_LIMIT, VALUE_LIMIT};
ghost use Rattle.plain_orders.specs.PairMap.{key_cmp, within};
ghost use Rattle.block_tree.specs.declared.limits.TheConstants.{EDGE_LIMIT};
ghost use Rattle.block_tree.specs.TreeWords.{size, size_of, old_size};

use crate::limits::{EDGE_LIMIT, LEAF_ROOM};
use std::collections::BTreeMap;
use std::ops::Bound;
use subscript_keys::{KeyBytes, ValueBytes};

/// How many bytes a pair takes in a block.
pub fn size_of(key: &KeyBytes, value: &ValueBytes) -> usize
    requires key { length key.now ≤ KEY_LIMIT }
    requires value { length value.now ≤ VALUE_LIMIT }
    ensures { result ≡ size_of (key.now, value.now) }
{
    4 + key.as_slice().len() + value.as_slice().len()
}

/// A count with a pair more, as far as a count goes.
fn with_pair(count: usize, key: &KeyBytes, value: &ValueBytes) -> usize
    ensures { result ≡ min (count + size_of (key.now, value.now)) (2 ^ 64 - 1) }
{
    count
        .saturating_add(4)
        .saturating_add(key.as_slice().len())
        .saturating_add(value.as_slice().len())
}

/// A count with a pair less.
pub fn without_pair(count: usize, key: &KeyBytes, value: &ValueBytes) -> usize
    ensures { result ≡ count - size_of (key.now, value.now) }
{
    count
        .saturating_sub(4)
        .saturating_sub(key.as_slice().len())
        .saturating_sub(value.as_slice().len())
}

/// A count without the old pair of a key of so many bytes.
pub fn without_old(count: usize, key_bytes: usize, old: &Option<ValueBytes>) -> usize
    ensures { result ≡ count - old_size key_bytes old.now }
{
    match old {
        None => count,
        Some(value) => count
            .saturating_sub(4)
            .saturating_sub(key_bytes)
            .saturating_sub(value.as_slice().len()),
    }
}

/// How many bytes the pairs of a span take in a block, as far as a count goes.
pub fn measure(pairs: &BTreeMap<KeyBytes, ValueBytes>, lo: &KeyBytes, hi: &KeyBytes) -> usize
    requires { key_cmp lo.now hi.now ≡ Less }
    ensures { result ≡ min (size (within pairs.now.entries record { lo = lo.now; hi = hi.now })) (2 ^ 64 - 1) }
{
    let mut count = 0;
    for (key, value) in pairs.range((Bound::Included(lo), Bound::Excluded(hi))) {
        count = with_pair(count, key, value);
    }
    count
}

/// A key at which the pairs of a span can be parted in two halves, each with pairs.
pub fn middle<'a>(
    pairs: &'a BTreeMap<KeyBytes, ValueBytes>,
    lo: &KeyBytes,
    hi: &KeyBytes,
) -> Option<&'a KeyBytes>
    requires { key_cmp lo.now hi.now ≡ Less }
    ensures from { IfSome result (λ key. key_cmp lo.now key.now ≡ Less) }
    ensures to { IfSome result (λ key. key_cmp key.now hi.now ≡ Less) }
    ensures short { IfSome result (λ key. length key.now ≤ EDGE_LIMIT) }
{
    let mut count = 0;
    for (key, value) in pairs.range((Bound::Included(lo), Bound::Excluded(hi))) {
        let before = count;
        count = with_pair(count, key, value);
        if before > 0 && count > LEAF_ROOM / 2 {
            return edge_at(lo, key, hi);
        }
    }
    None
}

/// The key, if it is between the two others and can be an edge.
fn edge_at<'a>(lo: &KeyBytes, key: &'a KeyBytes, hi: &KeyBytes) -> Option<&'a KeyBytes>
    ensures from { IfSome result (λ key. key_cmp lo.now key.now ≡ Less) }
    ensures to { IfSome result (λ key. key_cmp key.now hi.now ≡ Less) }
    ensures short { IfSome result (λ key. length key.now ≤ EDGE_LIMIT) }
{
    if lo < key && key < hi && key.as_slice().len() <= EDGE_LIMIT {
        return Some(key);
    }
    None
}
