ghost use Rattle.std.specs.Prelude.{◌↔◌, IsTrue};
ghost use Rattle.std.specs.List.{AllByRecursion};
ghost use Rattle.subscript_keys.specs.Span.{IsIn};
ghost use Rattle.block_bytes.specs.Blocks.{IsBlockRun, IsBeforePairs, PairsRise};

use subscript_keys::{KeyBytes, Pair, Run, Span};

/// Whether a key is before the first of the pairs.
fn is_before_pairs(key: &KeyBytes, pairs: &[Pair]) -> bool
    ensures { IsTrue result ↔ IsBeforePairs key.now pairs.now }
{
    match pairs.first() {
        None => true,
        Some(next) => *key < next.key,
    }
}

/// Whether the keys rise strictly.
fn are_rising(pairs: &[Pair]) -> bool
    ensures { IsTrue result ↔ PairsRise pairs.now }
{
    let mut rest = pairs;
    while let Some((first, others)) = rest.split_first() {
        if !is_before_pairs(&first.key, others) {
            return false;
        }
        rest = others;
    }
    true
}

/// Whether each key is in the span.
fn are_within(span: &Span, pairs: &[Pair]) -> bool
    ensures { IsTrue result ↔
        AllByRecursion (λ p. IsIn span.now.lo span.now.hi p.key) pairs.now }
{
    for pair in pairs {
        if !span.contains(&pair.key) {
            return false;
        }
    }
    true
}

/// Whether a run has a block, where it isn't too large.
pub fn is_block_run(run: &Run) -> bool
    ensures { IsTrue result ↔ IsBlockRun run.now }
{
    if run.span.lo >= run.span.hi {
        return false;
    }
    if !are_rising(run.pairs.as_slice()) {
        return false;
    }
    are_within(&run.span, run.pairs.as_slice())
}
