ghost use Rattle.std.specs.Prelude.{◌≡◌, ◌<◌, ◌≤◌, ◌++◌, [], ◌∷◌, length, drop, IfOk, IfSome, OnOk, OnErr};
ghost use Rattle.std.specs.declared.cmp.Ordering.TheVariants.{Less};
ghost use Rattle.subscript_keys.specs.declared.limits.TheConstants.{KEY_LIMIT};
ghost use Rattle.block_tree.specs.declared.limits.TheConstants.{PAIR_LIMIT};
ghost use Rattle.plain_orders.specs.PairMap.{key_cmp, Map};
ghost use Rattle.block_tree.specs.TreeWords.{end_of_keys};
ghost use Rattle.block_tree.specs.LeafWords.{begin_of, AreLeaves, IsAlone, IsPlace, IsRoom};

use crate::leaves::Leaves;
use crate::limits::LEAF_ROOM;
use crate::room::Room;
use crate::sizes::{measure, middle};
use std::alloc::{AllocError, Global};
use std::collections::BTreeMap;
use subscript_keys::{KeyBytes, ValueBytes};

/// Makes room for a pair of this size at the key, in whatever leaf holds it. Out of memory, leaves may be cut.
pub fn make_room(
    pairs: &BTreeMap<KeyBytes, ValueBytes>,
    leaves: &mut Leaves,
    key: &KeyBytes,
    needed: usize,
) -> Result<Room, AllocError>
    requires leaves { AreLeaves pairs.now.entries leaves.old }
    requires begins { begin_of leaves.old ≡ [] }
    requires short { length key.now ≤ KEY_LIMIT }
    requires below { key_cmp key.now end_of_keys ≡ Less }
    requires small { needed ≤ PAIR_LIMIT }
    ensures leaves { AreLeaves pairs.now.entries leaves.new }
    ensures begins { begin_of leaves.new ≡ [] }
    ensures room { IfOk result (λ room. IsRoom pairs.now.entries key.now needed leaves.new room) }
{
    if let Some(room) = find_room(pairs, leaves, key, needed) {
        return Ok(room);
    }
    let at = leaves.place_of(key);
    count_anew(pairs, leaves, at);
    if let Some(room) = find_room(pairs, leaves, key, needed) {
        return Ok(room);
    }
    halve(pairs, leaves, at)?;
    if let Some(room) = find_room(pairs, leaves, key, needed) {
        return Ok(room);
    }
    own_leaf(pairs, leaves, key, needed)
}

/// The leaf that holds the key, if it has room for a pair of this size.
fn find_room(
    pairs: &BTreeMap<KeyBytes, ValueBytes>,
    leaves: &Leaves,
    key: &KeyBytes,
    needed: usize,
) -> Option<Room>
    requires leaves { AreLeaves pairs.now.entries leaves.now }
    requires begins { begin_of leaves.now ≡ [] }
    requires below { key_cmp key.now end_of_keys ≡ Less }
    ensures { IfSome result (λ room. IsRoom pairs.now.entries key.now needed leaves.now room) }
{
    let at = leaves.place_of(key);
    let bytes = leaves.bytes(at).checked_add(needed)?;
    if bytes > LEAF_ROOM {
        return None;
    }
    Some(Room { at, bytes })
}

/// Counts the bytes of a leaf anew.
fn count_anew(pairs: &BTreeMap<KeyBytes, ValueBytes>, leaves: &mut Leaves, at: usize)
    requires leaves { AreLeaves pairs.now.entries leaves.old }
    requires at { at < length leaves.old }
    ensures leaves { AreLeaves pairs.now.entries leaves.new }
    ensures begins { begin_of leaves.new ≡ begin_of leaves.old }
    ensures len { length leaves.new ≡ length leaves.old }
{
    let bytes = measure(pairs, leaves.begin(at), leaves.end(at));
    leaves.set_bytes(at, bytes);
}

/// Cuts a leaf in two halves, if it is more than half full. Out of memory, it stays.
fn halve(
    pairs: &BTreeMap<KeyBytes, ValueBytes>,
    leaves: &mut Leaves,
    at: usize,
) -> Result<(), AllocError>
    requires leaves { AreLeaves pairs.now.entries leaves.old }
    requires at { at < length leaves.old }
    ensures leaves { AreLeaves pairs.now.entries leaves.new }
    ensures begins { begin_of leaves.new ≡ begin_of leaves.old }
{
    if let Some(key) = middle(pairs, leaves.begin(at), leaves.end(at)) {
        let behind = leaves.cut(at, key.clone()?)?;
        count_anew(pairs, leaves, behind);
    }
    count_anew(pairs, leaves, at);
    Ok(())
}

/// Gives the key a leaf of its own.
fn own_leaf(
    pairs: &BTreeMap<KeyBytes, ValueBytes>,
    leaves: &mut Leaves,
    key: &KeyBytes,
    needed: usize,
) -> Result<Room, AllocError>
    requires leaves { AreLeaves pairs.now.entries leaves.old }
    requires begins { begin_of leaves.old ≡ [] }
    requires short { length key.now ≤ KEY_LIMIT }
    requires below { key_cmp key.now end_of_keys ≡ Less }
    requires small { needed ≤ PAIR_LIMIT }
    ensures leaves { AreLeaves pairs.now.entries leaves.new }
    ensures begins { begin_of leaves.new ≡ [] }
    ensures room { IfOk result (λ room. IsRoom pairs.now.entries key.now needed leaves.new room) }
{
    let at = leaves.place_of(key);
    let at = begin_leaf(leaves, at, key)?;
    end_leaf(leaves, at, key)?;
    Ok(Room { at, bytes: needed })
}

/// Lets a leaf begin at the key, which the leaf at this place holds. Out of memory, nothing changes.
fn begin_leaf(leaves: &mut Leaves, at: usize, key: &KeyBytes) -> Result<usize, AllocError>
    requires place { IsPlace key.now leaves.old at }
    requires short { length key.now ≤ KEY_LIMIT }
    ensures leaves { (m : Map) → AreLeaves m leaves.old → AreLeaves m leaves.new }
    ensures begins { begin_of leaves.new ≡ begin_of leaves.old }
    ensures place { IfOk result (λ place. IsPlace key.now leaves.new place) }
    ensures begun { IfOk result (λ place. begin_of (drop place leaves.new) ≡ key.now) }
{
    if *leaves.begin(at) < *key {
        let behind = leaves.cut(at, key.clone()?)?;
        return Ok(behind);
    }
    Ok(at)
}

/// Lets the leaf at this place, which begins at the key, end behind the key. Out of memory, nothing changes.
fn end_leaf(leaves: &mut Leaves, at: usize, key: &KeyBytes) -> Result<(), AllocError>
    requires place { IsPlace key.now leaves.old at }
    requires begun { begin_of (drop at leaves.old) ≡ key.now }
    requires short { length key.now ≤ KEY_LIMIT }
    ensures leaves { (m : Map) → AreLeaves m leaves.old → AreLeaves m leaves.new }
    ensures begins { begin_of leaves.new ≡ begin_of leaves.old }
    ensures place { OnOk result (IsPlace key.now leaves.new at) }
    ensures alone { OnOk result (IsAlone key.now leaves.new at) }
{
    let next = bytes_behind(leaves.allocator(), key)?;
    if next < *leaves.end(at) {
        leaves.cut(at, next)?;
    }
    Ok(())
}

/// The least bytes behind the key.
fn bytes_behind(alloc: Global, key: &KeyBytes) -> Result<KeyBytes, AllocError>
    ensures { IfOk result (λ bytes. bytes ≡ key.now ++ 0 ∷ []) }
{
    let mut bytes = Vec::with_capacity(alloc, key.as_slice().len() + 1)?;
    bytes.extend_from_slice(key.as_slice())?;
    bytes.push(0)?;
    Ok(KeyBytes::from_vec(bytes))
}
