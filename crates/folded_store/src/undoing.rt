ghost use Rattle.std.specs.Prelude.{◌≡◌, ◌≢◌, ◌++◌, [], map, IfOk, OnOk, OnErr};
ghost use Rattle.plain_orders.specs.Fold.{undone, all_undone};
ghost use Rattle.plain_orders.specs.Spans.{undo_span};
ghost use Rattle.folded_store.specs.Limits.{MapFits, UndoFits, UndosFit};
ghost use Rattle.folded_store.specs.Undos.{undo_of};

use crate::changing::{put_pairs_back, put_value_back};
use crate::undo_item::UndoItem;
use crate::undo_list::UndoList;
use block_tree::PairTable;
use plain_orders::Spans;
use std::alloc::{AllocError, Global};

/// Puts an item back. Out of memory, a part of it is put back.
fn undo_item<P: PairTable>(alloc: Global, pairs: &mut P, item: UndoItem) -> Result<(), AllocError>
    requires pairs { MapFits (P.pairs pairs.old) }
    requires item { UndoFits (undo_of item) }
    ensures ok { OnOk result (P.pairs pairs.new ≡ undone (P.pairs pairs.old) (undo_of item)) }
    ensures fits { MapFits (P.pairs pairs.new) }
{
    match item {
        UndoItem::OldValue { key, value } => put_value_back(alloc, pairs, key, value),
        UndoItem::OldPairs { pairs: removed, .. } => put_pairs_back(pairs, removed),
    }
}

/// Puts all items of a transaction back, the newest first, and adds the spans in which they change something. Out of
/// memory, a part of them is put back; of no item, it takes no memory.
pub fn undo_all<P: PairTable>(
    alloc: Global,
    pairs: &mut P,
    undo: UndoList,
    spans: &mut Spans,
) -> Result<(), AllocError>
    requires pairs { MapFits (P.pairs pairs.old) }
    requires undo { UndosFit undo }
    ensures ok { OnOk result (P.pairs pairs.new ≡ all_undone (P.pairs pairs.old) undo) }
    ensures spans { OnOk result (spans.new ≡ spans.old ++ map undo_span undo) }
    ensures fits { MapFits (P.pairs pairs.new) }
    ensures some { OnErr result (undo ≢ []) }
{
    let mut undo = undo;
    while let Some(item) = undo.pop() {
        let span = item.span(alloc)?;
        undo_item(alloc, pairs, item)?;
        spans.push(span)?;
    }
    Ok(())
}
