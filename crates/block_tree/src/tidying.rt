ghost use Rattle.std.specs.Prelude.{◌≡◌, ◌+◌, ◌-◌, ◌<◌, ◌≤◌, [], length};
ghost use Rattle.block_tree.specs.LeafWords.{begin_of, AreFreed, AreLeaves};

use crate::leaves::Leaves;
use crate::limits::LEAF_ROOM;
use crate::sizes::measure;
use std::collections::BTreeMap;
use subscript_keys::{KeyBytes, Span, ValueBytes};

/// Lets leaves that pairs of a span were removed from join one another, or a neighbour, where they fit. So many bytes
/// were freed.
pub fn tidy(pairs: &BTreeMap<KeyBytes, ValueBytes>, leaves: &mut Leaves, span: &Span, freed: usize)
    requires leaves { AreLeaves pairs.now.entries leaves.old }
    requires begins { begin_of leaves.old ≡ [] }
    requires freed { AreFreed pairs.now.entries leaves.old span.now freed }
    ensures leaves { AreLeaves pairs.now.entries leaves.new }
    ensures begins { begin_of leaves.new ≡ [] }
{
    let first = leaves.place_of(&span.lo);
    if *leaves.begin(first) <= span.lo && span.hi <= *leaves.end(first) {
        leaves.set_bytes(first, leaves.bytes(first).saturating_sub(freed));
        join(pairs, leaves, first);
        return;
    }
    let last = leaves.place_of(&span.hi);
    tidy_between(pairs, leaves, first, last);
}

/// Lets leaves from the first to the last join one another, and then a neighbour, where they fit.
fn tidy_between(
    pairs: &BTreeMap<KeyBytes, ValueBytes>,
    leaves: &mut Leaves,
    first: usize,
    last: usize,
)
    requires leaves { AreLeaves pairs.now.entries leaves.old }
    requires begins { begin_of leaves.old ≡ [] }
    ensures leaves { AreLeaves pairs.now.entries leaves.new }
    ensures begins { begin_of leaves.new ≡ [] }
{
    if unite(pairs, leaves, first, last) {
        join(pairs, leaves, first);
        return;
    }
    let behind = first.saturating_add(1);
    if behind <= last {
        unite(pairs, leaves, first, last - 1);
        unite(pairs, leaves, behind, behind);
    }
    join(pairs, leaves, behind);
    join(pairs, leaves, first);
}

/// Makes one leaf of those from the first to the last, if all their pairs fit one. Answers whether it did.
fn unite(
    pairs: &BTreeMap<KeyBytes, ValueBytes>,
    leaves: &mut Leaves,
    first: usize,
    last: usize,
) -> bool
    requires leaves { AreLeaves pairs.now.entries leaves.old }
    requires begins { begin_of leaves.old ≡ [] }
    ensures leaves { AreLeaves pairs.now.entries leaves.new }
    ensures begins { begin_of leaves.new ≡ [] }
{
    if first > last || last >= leaves.len() {
        return false;
    }
    let bytes = measure(pairs, leaves.begin(first), leaves.end(last));
    if bytes > LEAF_ROOM {
        return false;
    }
    leaves.unite(first, last, bytes);
    true
}

/// Lets a leaf that is less than half full join a neighbour, if both fit one.
fn join(pairs: &BTreeMap<KeyBytes, ValueBytes>, leaves: &mut Leaves, at: usize)
    requires leaves { AreLeaves pairs.now.entries leaves.old }
    requires begins { begin_of leaves.old ≡ [] }
    ensures leaves { AreLeaves pairs.now.entries leaves.new }
    ensures begins { begin_of leaves.new ≡ [] }
{
    let bytes = leaves.bytes(at);
    if bytes >= LEAF_ROOM / 2 {
        return;
    }
    if at > 0 && leaves.bytes(at - 1).saturating_add(bytes) <= LEAF_ROOM {
        unite(pairs, leaves, at - 1, at);
        return;
    }
    let behind = at.saturating_add(1);
    if leaves.bytes(behind).saturating_add(bytes) <= LEAF_ROOM {
        unite(pairs, leaves, at, behind);
    }
}
