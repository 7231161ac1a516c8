ghost use Rattle.std.specs.Prelude.{◌≡◌, ◌↔◌, IsTrue, IfOk, [], ◌∷◌, ◌++◌};
ghost use Rattle.std.specs.Ordering.{nat_cmp, is_lt};
ghost use Rattle.std.specs.Cmp.Lexicographic.{slice_cmp};
ghost use Rattle.subscript_keys.specs.Span.{Meet, span_lo, span_hi};
ghost use Rattle.plain_orders.specs.Spans.{node_span, op_span, OpTouches, Touches};

use plain_orders::{Entry, Op, Spans};
use std::alloc::{AllocError, Global};
use subscript_keys::{KeyBytes, Span};

/// The span that holds a node's key alone.
pub fn node_span(alloc: Global, key: &KeyBytes) -> Result<Span, AllocError>
    ensures { IfOk result (λ span. span ≡ node_span key.now) }
{
    let mut hi = Vec::with_capacity(alloc, key.as_slice().len() + 1)?;
    hi.extend_from_slice(key.as_slice())?;
    hi.push(0)?;
    Ok(Span {
        lo: key.clone()?,
        hi: KeyBytes::from_vec(hi),
    })
}

/// The span that an operation changes.
fn op_span(alloc: Global, op: &Op) -> Result<Span, AllocError>
    ensures { IfOk result (λ span. span ≡ op_span op.now) }
{
    match op {
        Op::Set { key, .. } => node_span(alloc, key),
        Op::Kill { key } => Span::under(alloc, key),
        Op::Add { key, .. } => node_span(alloc, key),
    }
}

/// That span as a list.
pub fn op_spans(alloc: Global, op: &Op) -> Result<Spans, AllocError>
    ensures { IfOk result (λ spans. spans ≡ op_span op.now ∷ []) }
{
    let mut spans = Spans::new(alloc);
    spans.push(op_span(alloc, op)?)?;
    Ok(spans)
}

/// Whether a key stands before the end of the span of a node and its descendants.
fn is_before_end(key: &KeyBytes, node: &KeyBytes) -> bool
    ensures { result ≡ is_lt (slice_cmp nat_cmp key.now (span_hi node.now)) }
{
    let bytes = key.as_slice();
    let front = node.as_slice();
    if !bytes.starts_with(front) {
        return *key < *node;
    }
    bytes.len() == front.len() || bytes[front.len()] < 0xFF
}

/// Whether the span of a node and its descendants meets a span.
fn meets_killed(node: &KeyBytes, span: &Span) -> bool
    ensures { IsTrue result ↔ Meet (span_lo node.now) (span_hi node.now) span.now.lo span.now.hi }
{
    if span.lo >= span.hi {
        return false;
    }
    if *node >= span.hi {
        return false;
    }
    is_before_end(&span.lo, node)
}

/// Whether an operation's node, or its killed span, meets a span.
fn op_touches(op: &Op, span: &Span) -> bool
    ensures { IsTrue result ↔ OpTouches op.now span.now }
{
    match op {
        Op::Set { key, .. } => span.contains(key),
        Op::Kill { key } => meets_killed(key, span),
        Op::Add { key, .. } => span.contains(key),
    }
}

/// Whether an entry's own node or killed span meets a span. Spans that a Rollback or Close undoes are
/// not its own.
pub fn touches(entry: &Entry, span: &Span) -> bool
    ensures { IsTrue result ↔ Touches entry.now span.now }
{
    match entry {
        Entry::Update { op, .. } => op_touches(op, span),
        _ => false,
    }
}
