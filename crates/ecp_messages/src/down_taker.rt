ghost use Rattle.std.specs.Prelude.{◌≡◌, ◌≢◌, Err, IfOk, IfSome, IfNone};
ghost use Rattle.ecp_messages.specs.declared.down.Down.{Down};
ghost use Rattle.ecp_messages.specs.Downs.{down_row};
ghost use Rattle.ecp_messages.specs.Rows.{keeps_sum};
ghost use Rattle.ecp_messages.specs.Taking.{IsAhead, IsUnknown, NoMessage};

use crate::about::About;
use crate::block_part::BlockPart;
use crate::down::Down;
use crate::field_takers::{take_about, take_front, take_part};
use crate::message_error::MessageError;
use field_bytes::{FieldError, take_i64, take_u16, take_u32, take_u64};
use std::alloc::Global;
use subscript_keys::KeyBytes;

/// A Welcome behind its kind.
#[tactic(auto, using(crate::proofs::DownTable::no_message))]
fn take_welcome(bytes: &[u8]) -> Option<(Down, &[u8])>
    ensures some { IfSome result (λ got. IsAhead down_row 0x81 bytes.now got.0 got.1.now) }
    ensures none { IfNone result (NoMessage down_row 0x81 bytes.now) }
{
    let (session, rest) = take_u64(bytes)?;
    let (epoch, rest) = take_u32(rest)?;
    let (kept, rest) = take_u64(rest)?;
    let (front, rest) = take_front(rest)?;
    let (taken, rest) = take_u64(rest)?;
    let message = Down::Welcome {
        session,
        epoch,
        kept,
        front,
        taken,
    };
    Some((message, rest))
}

/// A Reset behind its kind.
#[tactic(auto, using(crate::proofs::DownTable::no_message))]
fn take_reset(bytes: &[u8]) -> Option<(Down, &[u8])>
    ensures some { IfSome result (λ got. IsAhead down_row 0x82 bytes.now got.0 got.1.now) }
    ensures none { IfNone result (NoMessage down_row 0x82 bytes.now) }
{
    let (session, rest) = take_u64(bytes)?;
    let (at, rest) = take_u64(rest)?;
    Some((Down::Reset { session, at }, rest))
}

/// A Block behind its kind.
#[tactic(auto, using(crate::proofs::DownTable::no_message))]
fn take_block(alloc: Global, bytes: &[u8]) -> Result<(Down, &[u8]), FieldError>
    ensures some { IfOk result (λ got. IsAhead down_row 0x83 bytes.now got.0 got.1.now) }
    ensures none { result ≡ Err FieldError.NoField → NoMessage down_row 0x83 bytes.now }
{
    let (front, rest) = take_front(bytes).ok_or(FieldError::NoField)?;
    let (block, rest) = take_part(alloc, rest)?;
    let block = BlockPart::from_vec(block);
    Ok((Down::Block { front, block }, rest))
}

/// A Drop behind its kind.
#[tactic(auto, using(crate::proofs::DownTable::no_message))]
fn take_drop(alloc: Global, bytes: &[u8]) -> Result<(Down, &[u8]), FieldError>
    ensures some { IfOk result (λ got. IsAhead down_row 0x84 bytes.now got.0 got.1.now) }
    ensures none { result ≡ Err FieldError.NoField → NoMessage down_row 0x84 bytes.now }
{
    let (front, rest) = take_front(bytes).ok_or(FieldError::NoField)?;
    let (lo, rest) = take_part(alloc, rest)?;
    let (hi, rest) = take_part(alloc, rest)?;
    let lo = KeyBytes::from_vec(lo);
    let hi = KeyBytes::from_vec(hi);
    Ok((Down::Drop { front, lo, hi }, rest))
}

/// An Ack behind its kind.
#[tactic(auto, using(crate::proofs::DownTable::no_message))]
fn take_ack(bytes: &[u8]) -> Option<(Down, &[u8])>
    ensures some { IfSome result (λ got. IsAhead down_row 0x85 bytes.now got.0 got.1.now) }
    ensures none { IfNone result (NoMessage down_row 0x85 bytes.now) }
{
    let (front, rest) = take_front(bytes)?;
    Some((Down::Ack { front }, rest))
}

/// A Grant behind its kind.
#[tactic(auto, using(crate::proofs::DownTable::no_message))]
fn take_grant(bytes: &[u8]) -> Option<(Down, &[u8])>
    ensures some { IfSome result (λ got. IsAhead down_row 0x86 bytes.now got.0 got.1.now) }
    ensures none { IfNone result (NoMessage down_row 0x86 bytes.now) }
{
    let (front, rest) = take_front(bytes)?;
    let (ticket, rest) = take_u32(rest)?;
    let (at, rest) = take_u64(rest)?;
    Some((Down::Grant { front, ticket, at }, rest))
}

/// Whether an Answer may tell this sum: one other than 0 is told only of what was counted.
fn may_tell(about: About, sum: i64) -> bool
    ensures { result ≡ keeps_sum about sum }
{
    match about {
        About::Counted => true,
        _ => sum == 0,
    }
}

/// An Answer behind its kind.
#[tactic(auto, using(crate::proofs::DownTable::no_message))]
fn take_answer(bytes: &[u8]) -> Option<(Down, &[u8])>
    ensures some { IfSome result (λ got. IsAhead down_row 0x87 bytes.now got.0 got.1.now) }
    ensures none { IfNone result (NoMessage down_row 0x87 bytes.now) }
{
    let (front, rest) = take_front(bytes)?;
    let (about, rest) = take_about(rest)?;
    let (job, rest) = take_u16(rest)?;
    let (number, rest) = take_u64(rest)?;
    let (at, rest) = take_u64(rest)?;
    let (sum, rest) = take_i64(rest)?;
    if !may_tell(about, sum) {
        return None;
    }
    let message = Down::Answer {
        front,
        about,
        job,
        number,
        at,
        sum,
    };
    Some((message, rest))
}

/// A Normal behind its kind.
#[tactic(auto, using(crate::proofs::DownTable::no_message))]
fn take_normal(bytes: &[u8]) -> Option<(Down, &[u8])>
    ensures some { IfSome result (λ got. IsAhead down_row 0x88 bytes.now got.0 got.1.now) }
    ensures none { IfNone result (NoMessage down_row 0x88 bytes.now) }
{
    let (front, rest) = take_front(bytes)?;
    Some((Down::Normal { front }, rest))
}

/// The message behind its kind, and what follows it; `BadField` where a field is missing or
/// out of its range.
#[tactic(auto, using(crate::proofs::DownTable::unknown_kind, crate::proofs::MessageErrors::errors_made))]
pub(crate) fn take_down(
    alloc: Global,
    kind: u8,
    bytes: &[u8],
) -> Result<(Down, &[u8]), MessageError>
    ensures some { IfOk result (λ got. IsAhead down_row kind bytes.now got.0 got.1.now) }
    ensures known { result ≢ Err MessageError.BadKind → IsUnknown down_row kind → ⊥ }
    ensures bad_kind { result ≡ Err MessageError.BadKind → IsUnknown down_row kind }
    ensures bad_field { result ≡ Err MessageError.BadField →
        NoMessage down_row kind bytes.now }
    ensures left_over { result ≢ Err MessageError.LeftOver }
{
    match kind {
        0x81 => take_welcome(bytes).ok_or(MessageError::BadField),
        0x82 => take_reset(bytes).ok_or(MessageError::BadField),
        0x83 => Ok(take_block(alloc, bytes)?),
        0x84 => Ok(take_drop(alloc, bytes)?),
        0x85 => take_ack(bytes).ok_or(MessageError::BadField),
        0x86 => take_grant(bytes).ok_or(MessageError::BadField),
        0x87 => take_answer(bytes).ok_or(MessageError::BadField),
        0x88 => take_normal(bytes).ok_or(MessageError::BadField),
        0x7F => Ok((Down::Bare, bytes)),
        _ => Err(MessageError::BadKind),
    }
}
