ghost use Rattle.std.specs.Prelude.{◌≡◌, ◌≢◌, ◌++◌, List, length, Err, IfOk};
ghost use Rattle.std.specs.List.{AllByRecursion};
ghost use Rattle.subscript_keys.specs.declared.pair.Pair.{Pair};
ghost use Rattle.subscript_keys.specs.declared.run.Run.{Run};
ghost use Rattle.field_bytes.specs.Fields.{NoneAhead};
ghost use Rattle.block_bytes.specs.Blocks.{pair_bytes, pairs_bytes, span_bytes, block_bytes, HasShortLists, HasShortEnds, IsShortRun, IsBlockOf};

use crate::block_error::BlockError;
use crate::block_layout::{BLOCK_LIMIT, FORM};
use crate::run_check::is_block_run;
use field_bytes::{FieldError, take_list, take_u8, take_u16};
use std::alloc::Global;
use subscript_keys::{KeyBytes, Pair, Pairs, Run, Span, ValueBytes};

/// A span, and what follows it; no field where none stands there.
#[tactic(auto, unfolding(crate::specs::Blocks::span_bytes))]
fn take_span(alloc: Global, bytes: &[u8]) -> Result<(Span, &[u8]), FieldError>
    ensures some { IfOk result (λ got. bytes.now ≡ span_bytes got.0 ++ got.1.now) }
    ensures short { IfOk result (λ got. HasShortEnds got.0) }
    ensures none { result ≡ Err FieldError.NoField →
        NoneAhead span_bytes HasShortEnds bytes.now }
{
    let (lo, rest) = take_list(bytes).ok_or(FieldError::NoField)?;
    let (hi, rest) = take_list(rest).ok_or(FieldError::NoField)?;
    let lo = Vec::from_slice(alloc, lo)?;
    let hi = Vec::from_slice(alloc, hi)?;
    let span = Span {
        lo: KeyBytes::from_vec(lo),
        hi: KeyBytes::from_vec(hi),
    };
    Ok((span, rest))
}

/// A pair, and what follows it; no field where none stands there.
#[tactic(auto, unfolding(crate::specs::Blocks::pair_bytes))]
fn take_pair(alloc: Global, bytes: &[u8]) -> Result<(Pair, &[u8]), FieldError>
    ensures some { IfOk result (λ got. bytes.now ≡ pair_bytes got.0 ++ got.1.now) }
    ensures short { IfOk result (λ got. HasShortLists got.0) }
    ensures none { result ≡ Err FieldError.NoField →
        NoneAhead pair_bytes HasShortLists bytes.now }
{
    let (key, rest) = take_list(bytes).ok_or(FieldError::NoField)?;
    let (value, rest) = take_list(rest).ok_or(FieldError::NoField)?;
    let key = Vec::from_slice(alloc, key)?;
    let value = Vec::from_slice(alloc, value)?;
    let pair = Pair {
        key: KeyBytes::from_vec(key),
        value: ValueBytes::from_vec(value),
    };
    Ok((pair, rest))
}

/// So many pairs, whose bytes are all of the bytes.
fn take_pairs(alloc: Global, count: u16, bytes: &[u8]) -> Result<Pairs, FieldError>
    ensures some { IfOk result (λ pairs. bytes.now ≡ pairs_bytes pairs) }
    ensures count { IfOk result (λ pairs. length pairs ≡ count) }
    ensures short { IfOk result (λ pairs. AllByRecursion HasShortLists pairs) }
    ensures none { result ≡ Err FieldError.NoField → (pairs : List Pair) →
        AllByRecursion HasShortLists pairs → length pairs ≡ count →
        bytes.now ≢ pairs_bytes pairs }
{
    let mut pairs = Pairs::new(alloc);
    let mut rest = bytes;
    for _ in 0..count {
        let (pair, after) = take_pair(alloc, rest)?;
        pairs.push(pair)?;
        rest = after;
    }
    if rest.is_empty() {
        return Ok(pairs);
    }
    Err(FieldError::NoField)
}

/// The run whose bytes these are, if it is short, in whatever order its keys are.
fn take_run(alloc: Global, bytes: &[u8]) -> Result<Run, FieldError>
    ensures some { IfOk result (λ run. block_bytes run ≡ bytes.now) }
    ensures short { IfOk result (λ run. IsShortRun run) }
    ensures none { result ≡ Err FieldError.NoField → (run : Run) →
        IsShortRun run → block_bytes run ≢ bytes.now }
{
    let (form, rest) = take_u8(bytes).ok_or(FieldError::NoField)?;
    if form != FORM {
        return Err(FieldError::NoField);
    }
    let (span, rest) = take_span(alloc, rest)?;
    let (count, rest) = take_u16(rest).ok_or(FieldError::NoField)?;
    let pairs = take_pairs(alloc, count, rest)?;
    Ok(Run { span, pairs })
}

/// The run whose block the bytes are. What is taken of memory is as much as the bytes hold, however many
/// pairs they say that they have.
pub fn read_block(alloc: Global, bytes: &[u8]) -> Result<Run, BlockError>
    ensures ok { IfOk result (λ run. IsBlockOf run bytes.now) }
    ensures not_a_block { result ≡ Err BlockError.NotABlock → (run : Run) →
        IsBlockOf run bytes.now → ⊥ }
    ensures again { (run : Run) → IsBlockOf run bytes.now → IfOk result (λ found. found ≡ run) }
    ensures too_large { result ≢ Err BlockError.BlockTooLarge }
{
    if bytes.len() > BLOCK_LIMIT {
        return Err(BlockError::NotABlock);
    }
    let run = match take_run(alloc, bytes) {
        Ok(run) => run,
        Err(FieldError::NoField) => return Err(BlockError::NotABlock),
        Err(FieldError::Memory(error)) => return Err(BlockError::Memory(error)),
    };
    if !is_block_run(&run) {
        return Err(BlockError::NotABlock);
    }
    Ok(run)
}
