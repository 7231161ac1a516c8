ghost use Rattle.std.specs.Prelude.{◌≡◌, ◌≢◌, ◌↔◌, ◌+◌, ◌<◌, ◌≤◌, ◌^◌, ◌++◌, length, Err, OnOk, IfOk, IfSome, IfNone};
ghost use Rattle.std.specs.List.{AllByRecursion};
ghost use Rattle.block_bytes.specs.Blocks.{pair_bytes, pairs_bytes, span_bytes, block_bytes, HasShortLists, HasShortEnds, IsShortRun, IsBlockRun, IsBlockOf};

use crate::block::Block;
use crate::block_error::BlockError;
use crate::block_layout::{BLOCK_LIMIT, FORM};
use crate::block_room::room_left;
use field_bytes::{put_list, put_u8, put_u16};
use std::alloc::{AllocError, Global};
use subscript_keys::{Pair, Run, Span};

#[tactic(auto, unfolding(crate::specs::Blocks::span_bytes))]
fn put_span(to: &mut Vec<u8>, span: &Span) -> Result<(), AllocError>
    requires { HasShortEnds span.now }
    ensures { OnOk result (to.new.items ≡ to.old.items ++ span_bytes span.now) }
{
    put_list(to, span.lo.as_slice())?;
    put_list(to, span.hi.as_slice())
}

#[tactic(auto, unfolding(crate::specs::Blocks::pair_bytes))]
fn put_pair(to: &mut Vec<u8>, pair: &Pair) -> Result<(), AllocError>
    requires { HasShortLists pair.now }
    ensures { OnOk result (to.new.items ≡ to.old.items ++ pair_bytes pair.now) }
{
    put_list(to, pair.key.as_slice())?;
    put_list(to, pair.value.as_slice())
}

fn put_pairs(to: &mut Vec<u8>, pairs: &[Pair]) -> Result<(), AllocError>
    requires { AllByRecursion HasShortLists pairs.now }
    ensures { OnOk result (to.new.items ≡ to.old.items ++ pairs_bytes pairs.now) }
{
    for pair in pairs {
        put_pair(to, pair)?;
    }
    Ok(())
}

/// The bytes of a run, of which there are so many.
#[tactic(auto, unfolding(crate::specs::Blocks::block_bytes))]
fn run_bytes(alloc: Global, run: &Run, count: usize) -> Result<Vec<u8>, AllocError>
    requires { IsShortRun run.now }
    ensures { IfOk result (λ bytes. bytes.items ≡ block_bytes run.now) }
{
    let pairs = run.pairs.as_slice();
    let mut bytes = Vec::with_capacity(alloc, count)?;
    put_u8(&mut bytes, FORM)?;
    put_span(&mut bytes, &run.span)?;
    put_u16(&mut bytes, pairs.len() as u16)?;
    put_pairs(&mut bytes, pairs)?;
    Ok(bytes)
}

/// The block of a run.
pub fn write_block(alloc: Global, run: &Run) -> Result<Block, BlockError>
    requires { IsBlockRun run.now }
    ensures ok { IfOk result (λ block. IsBlockOf run.now block) }
    ensures too_large { result ≡ Err BlockError.BlockTooLarge ↔
        (8192 < length (block_bytes run.now)) }
    ensures not_a_block { result ≢ Err BlockError.NotABlock }
{
    let Some(left) = room_left(run) else {
        return Err(BlockError::BlockTooLarge);
    };
    match run_bytes(alloc, run, BLOCK_LIMIT - left) {
        Ok(bytes) => Ok(Block::from_vec(bytes)),
        Err(error) => Err(BlockError::Memory(error)),
    }
}
