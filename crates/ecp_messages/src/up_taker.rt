ghost use Rattle.std.specs.Prelude.{◌≡◌, ◌≢◌, Err, IfOk, IfSome, IfNone};
ghost use Rattle.ecp_messages.specs.declared.up.Up.{Up};
ghost use Rattle.ecp_messages.specs.Ups.{up_row};
ghost use Rattle.ecp_messages.specs.Taking.{IsAhead, IsUnknown, NoMessage};

use crate::field_takers::{
    take_change, take_count, take_mode, take_sought, take_version, take_wanted,
};
use crate::message_error::MessageError;
use crate::up::Up;
use field_bytes::{FieldError, take_i64, take_key, take_u8, take_u16, take_u32, take_u64};
use std::alloc::Global;

/// A Hello behind its kind.
#[tactic(auto, using(crate::proofs::UpTable::no_message))]
fn take_hello(bytes: &[u8]) -> Option<(Up, &[u8])>
    ensures some { IfSome result (λ got. IsAhead up_row 0x01 bytes.now got.0 got.1.now) }
    ensures none { IfNone result (NoMessage up_row 0x01 bytes.now) }
{
    let rest = take_version(bytes)?;
    let (app, rest) = take_u8(rest)?;
    let (dial, rest) = take_u32(rest)?;
    Some((Up::Hello { app, dial }, rest))
}

/// A Recover behind its kind.
#[tactic(auto, using(crate::proofs::UpTable::no_message))]
fn take_recover(bytes: &[u8]) -> Option<(Up, &[u8])>
    ensures some { IfSome result (λ got. IsAhead up_row 0x02 bytes.now got.0 got.1.now) }
    ensures none { IfNone result (NoMessage up_row 0x02 bytes.now) }
{
    let (app, rest) = take_u8(bytes)?;
    let (session, rest) = take_u64(rest)?;
    let (epoch, rest) = take_u32(rest)?;
    let (taken, rest) = take_u64(rest)?;
    let (dial, rest) = take_u32(rest)?;
    let message = Up::Recover {
        app,
        session,
        epoch,
        taken,
        dial,
    };
    Some((message, rest))
}

/// An Update behind its kind.
#[tactic(auto, using(crate::proofs::UpTable::no_message))]
fn take_update(alloc: Global, bytes: &[u8]) -> Result<(Up, &[u8]), FieldError>
    ensures some { IfOk result (λ got. IsAhead up_row 0x03 bytes.now got.0 got.1.now) }
    ensures none { result ≡ Err FieldError.NoField → NoMessage up_row 0x03 bytes.now }
{
    let (w, rest) = take_u64(bytes).ok_or(FieldError::NoField)?;
    let (job, rest) = take_u16(rest).ok_or(FieldError::NoField)?;
    let (txn, rest) = take_u32(rest).ok_or(FieldError::NoField)?;
    let (op, rest) = take_change(alloc, rest)?;
    Ok((Up::Update { w, job, txn, op }, rest))
}

/// An Add behind its kind.
#[tactic(auto, using(crate::proofs::UpTable::no_message))]
fn take_add(alloc: Global, bytes: &[u8]) -> Result<(Up, &[u8]), FieldError>
    ensures some { IfOk result (λ got. IsAhead up_row 0x04 bytes.now got.0 got.1.now) }
    ensures none { result ≡ Err FieldError.NoField → NoMessage up_row 0x04 bytes.now }
{
    let (w, rest) = take_u64(bytes).ok_or(FieldError::NoField)?;
    let (job, rest) = take_u16(rest).ok_or(FieldError::NoField)?;
    let (key, rest) = take_key(alloc, rest)?;
    let (amount, rest) = take_i64(rest).ok_or(FieldError::NoField)?;
    let message = Up::Add {
        w,
        job,
        key,
        amount,
    };
    Ok((message, rest))
}

/// A Fetch behind its kind.
#[tactic(auto, using(crate::proofs::UpTable::no_message))]
fn take_fetch(alloc: Global, bytes: &[u8]) -> Result<(Up, &[u8]), FieldError>
    ensures some { IfOk result (λ got. IsAhead up_row 0x05 bytes.now got.0 got.1.now) }
    ensures none { result ≡ Err FieldError.NoField → NoMessage up_row 0x05 bytes.now }
{
    let (key, rest) = take_sought(alloc, bytes)?;
    Ok((Up::Fetch { key }, rest))
}

/// An Ask behind its kind.
#[tactic(auto, using(crate::proofs::UpTable::no_message))]
fn take_ask(alloc: Global, bytes: &[u8]) -> Result<(Up, &[u8]), FieldError>
    ensures some { IfOk result (λ got. IsAhead up_row 0x06 bytes.now got.0 got.1.now) }
    ensures none { result ≡ Err FieldError.NoField → NoMessage up_row 0x06 bytes.now }
{
    let (ticket, rest) = take_u32(bytes).ok_or(FieldError::NoField)?;
    let (job, rest) = take_u16(rest).ok_or(FieldError::NoField)?;
    let (mode, rest) = take_mode(rest).ok_or(FieldError::NoField)?;
    let (key, rest) = take_key(alloc, rest)?;
    let message = Up::Ask {
        ticket,
        job,
        mode,
        key,
    };
    Ok((message, rest))
}

/// An Unlock behind its kind.
#[tactic(auto, using(crate::proofs::UpTable::no_message))]
fn take_unlock(alloc: Global, bytes: &[u8]) -> Result<(Up, &[u8]), FieldError>
    ensures some { IfOk result (λ got. IsAhead up_row 0x07 bytes.now got.0 got.1.now) }
    ensures none { result ≡ Err FieldError.NoField → NoMessage up_row 0x07 bytes.now }
{
    let (job, rest) = take_u16(bytes).ok_or(FieldError::NoField)?;
    let (mode, rest) = take_mode(rest).ok_or(FieldError::NoField)?;
    let (key, rest) = take_key(alloc, rest)?;
    Ok((Up::Unlock { job, mode, key }, rest))
}

/// A Cancel behind its kind.
#[tactic(auto, using(crate::proofs::UpTable::no_message))]
fn take_cancel(bytes: &[u8]) -> Option<(Up, &[u8])>
    ensures some { IfSome result (λ got. IsAhead up_row 0x08 bytes.now got.0 got.1.now) }
    ensures none { IfNone result (NoMessage up_row 0x08 bytes.now) }
{
    let (ticket, rest) = take_u32(bytes)?;
    Some((Up::Cancel { ticket }, rest))
}

/// A Commit behind its kind.
#[tactic(auto, using(crate::proofs::UpTable::no_message))]
fn take_commit(bytes: &[u8]) -> Option<(Up, &[u8])>
    ensures some { IfSome result (λ got. IsAhead up_row 0x09 bytes.now got.0 got.1.now) }
    ensures none { IfNone result (NoMessage up_row 0x09 bytes.now) }
{
    let (w, rest) = take_u64(bytes)?;
    let (job, rest) = take_u16(rest)?;
    let (txn, rest) = take_u32(rest)?;
    let (wanted, rest) = take_wanted(rest)?;
    let message = Up::Commit {
        w,
        job,
        txn,
        wanted,
    };
    Some((message, rest))
}

/// A Rollback behind its kind.
#[tactic(auto, using(crate::proofs::UpTable::no_message))]
fn take_rollback(bytes: &[u8]) -> Option<(Up, &[u8])>
    ensures some { IfSome result (λ got. IsAhead up_row 0x0A bytes.now got.0 got.1.now) }
    ensures none { IfNone result (NoMessage up_row 0x0A bytes.now) }
{
    let (w, rest) = take_u64(bytes)?;
    let (job, rest) = take_u16(rest)?;
    let (txn, rest) = take_u32(rest)?;
    Some((Up::Rollback { w, job, txn }, rest))
}

/// A Sync behind its kind.
#[tactic(auto, using(crate::proofs::UpTable::no_message))]
fn take_sync(bytes: &[u8]) -> Option<(Up, &[u8])>
    ensures some { IfSome result (λ got. IsAhead up_row 0x0B bytes.now got.0 got.1.now) }
    ensures none { IfNone result (NoMessage up_row 0x0B bytes.now) }
{
    let (ticket, rest) = take_u32(bytes)?;
    Some((Up::Sync { ticket }, rest))
}

/// A Claim behind its kind.
#[tactic(auto, using(crate::proofs::UpTable::no_message))]
fn take_claim(alloc: Global, bytes: &[u8]) -> Result<(Up, &[u8]), FieldError>
    ensures some { IfOk result (λ got. IsAhead up_row 0x0D bytes.now got.0 got.1.now) }
    ensures none { result ≡ Err FieldError.NoField → NoMessage up_row 0x0D bytes.now }
{
    let (job, rest) = take_u16(bytes).ok_or(FieldError::NoField)?;
    let (mode, rest) = take_mode(rest).ok_or(FieldError::NoField)?;
    let (count, rest) = take_count(rest).ok_or(FieldError::NoField)?;
    let (at, rest) = take_u64(rest).ok_or(FieldError::NoField)?;
    let (key, rest) = take_key(alloc, rest)?;
    let message = Up::Claim {
        job,
        mode,
        count,
        at,
        key,
    };
    Ok((message, rest))
}

/// The message behind its kind, and what follows it; `BadField` where a field is missing or
/// out of its range.
#[tactic(auto, using(crate::proofs::UpTable::unknown_kind, crate::proofs::MessageErrors::errors_made))]
pub(crate) fn take_up(alloc: Global, kind: u8, bytes: &[u8]) -> Result<(Up, &[u8]), MessageError>
    ensures some { IfOk result (λ got. IsAhead up_row kind bytes.now got.0 got.1.now) }
    ensures known { result ≢ Err MessageError.BadKind → IsUnknown up_row kind → ⊥ }
    ensures bad_kind { result ≡ Err MessageError.BadKind → IsUnknown up_row kind }
    ensures bad_field { result ≡ Err MessageError.BadField →
        NoMessage up_row kind bytes.now }
    ensures left_over { result ≢ Err MessageError.LeftOver }
{
    match kind {
        0x01 => take_hello(bytes).ok_or(MessageError::BadField),
        0x02 => take_recover(bytes).ok_or(MessageError::BadField),
        0x03 => Ok(take_update(alloc, bytes)?),
        0x04 => Ok(take_add(alloc, bytes)?),
        0x05 => Ok(take_fetch(alloc, bytes)?),
        0x06 => Ok(take_ask(alloc, bytes)?),
        0x07 => Ok(take_unlock(alloc, bytes)?),
        0x08 => take_cancel(bytes).ok_or(MessageError::BadField),
        0x09 => take_commit(bytes).ok_or(MessageError::BadField),
        0x0A => take_rollback(bytes).ok_or(MessageError::BadField),
        0x0B => take_sync(bytes).ok_or(MessageError::BadField),
        0x0C => Ok((Up::Done, bytes)),
        0x0D => Ok(take_claim(alloc, bytes)?),
        0x7F => Ok((Up::Bare, bytes)),
        _ => Err(MessageError::BadKind),
    }
}
