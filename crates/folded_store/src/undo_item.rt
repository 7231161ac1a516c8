ghost use Rattle.std.specs.Prelude.{◌≡◌, IfOk};
ghost use Rattle.plain_orders.specs.Spans.{undo_span};
ghost use Rattle.folded_store.specs.Undos.{undo_of};

use plain_programs::node_span;
use std::alloc::{AllocError, Global};
use subscript_keys::{KeyBytes, Pairs, Span, ValueBytes};

/// What one update of a transaction leaves to be put back.
#[derive(Drop)]
pub enum UndoItem {
    /// Of a Set: the old value of its node, or its absence.
    OldValue {
        key: KeyBytes,
        value: Option<ValueBytes>,
    },
    /// Of a Kill: the pairs that it removed at its node and below it.
    OldPairs {
        key: KeyBytes,
        pairs: Pairs,
    },
}

impl UndoItem {
    /// The span in which it changes something where it is put back.
    pub fn span(&self, alloc: Global) -> Result<Span, AllocError>
        ensures { IfOk result (λ span. span ≡ undo_span (undo_of self.now)) }
    {
        match self {
            UndoItem::OldValue { key, .. } => node_span(alloc, key),
            UndoItem::OldPairs { key, .. } => Span::under(alloc, key),
        }
    }
}
