ghost use Rattle.std.specs.Prelude.{◌≡◌, ◌+◌, ◌<◌, length, IfSome, IfNone};
ghost use Rattle.field_bytes.specs.Fields.{list_bytes};
ghost use Rattle.block_bytes.specs.Blocks.{pair_bytes, pairs_bytes, block_bytes};

use crate::block_layout::BLOCK_LIMIT;
use subscript_keys::{Pair, Run};

/// How much is left behind a list, if there is room for it.
#[tactic(auto, using(crate::proofs::BlockLengths::list_length))]
fn behind_list(room: usize, list: &[u8]) -> Option<usize>
    ensures some { IfSome result (λ left. left + length (list_bytes list.now) ≡ room) }
    ensures none { IfNone result (room < length (list_bytes list.now)) }
{
    room.checked_sub(2)?.checked_sub(list.len())
}

/// How much is left behind a pair, if there is room for it.
#[tactic(auto, using(crate::proofs::BlockLengths::pair_length))]
fn behind_pair(room: usize, pair: &Pair) -> Option<usize>
    ensures some { IfSome result (λ left. left + length (pair_bytes pair.now) ≡ room) }
    ensures none { IfNone result (room < length (pair_bytes pair.now)) }
{
    let left = behind_list(room, pair.key.as_slice())?;
    behind_list(left, pair.value.as_slice())
}

/// How much is left behind pairs, if there is room for them.
fn behind_pairs(room: usize, pairs: &[Pair]) -> Option<usize>
    ensures some { IfSome result (λ left. left + length (pairs_bytes pairs.now) ≡ room) }
    ensures none { IfNone result (room < length (pairs_bytes pairs.now)) }
{
    let mut left = room;
    for pair in pairs {
        left = behind_pair(left, pair)?;
    }
    Some(left)
}

/// How many bytes a block has left behind a run, if the run fits.
#[tactic(auto, using(crate::proofs::BlockLengths::block_length))]
pub(crate) fn room_left(run: &Run) -> Option<usize>
    ensures some { IfSome result (λ left. left + length (block_bytes run.now) ≡ 8192) }
    ensures none { IfNone result (8192 < length (block_bytes run.now)) }
{
    let left = behind_list(BLOCK_LIMIT - 3, run.span.lo.as_slice())?;
    let left = behind_list(left, run.span.hi.as_slice())?;
    behind_pairs(left, run.pairs.as_slice())
}
