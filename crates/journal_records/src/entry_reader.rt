ghost use Rattle.std.specs.Prelude.{◌≡◌, ℕ, List, ◌≤◌, ◌++◌, ◌∷◌, length, drop, Err, IfOk, IfSome, IfNone};
ghost use Rattle.plain_orders.specs.declared.entry.Entry.{Entry};
ghost use Rattle.journal_records.specs.Records.{entry_bytes, IsRecord, NoRecordAhead};

use crate::item_head::take_item_head;
use crate::record_error::RecordError;
use crate::record_kinds::{CLOSED, COMMIT, EPOCH, OPENED, ROLLBACK, UPDATE};
use crate::record_op::is_record_op;
use field_bytes::{FieldError, take_op, take_u8, take_u32, take_u64};
use plain_orders::Entry;
use std::alloc::Global;

/// An Epoch behind its kind, and what follows it.
#[tactic(auto, using(crate::proofs::NoRecord::no_epoch))]
fn take_epoch(bytes: &[u8]) -> Option<(Entry, &[u8])>
    ensures some { IfSome result (λ got. 1 ∷ bytes.now ≡ entry_bytes got.0 ++ got.1.now) }
    ensures is_record { IfSome result (λ got. IsRecord got.0) }
    ensures none { IfNone result (NoRecordAhead (1 ∷ bytes.now)) }
{
    let (number, rest) = take_u32(bytes)?;
    Some((Entry::Epoch { number }, rest))
}

/// An Opened behind its kind, and what follows it.
#[tactic(auto, using(crate::proofs::NoRecord::no_opened, crate::proofs::NoRecord::no_app))]
fn take_opened(bytes: &[u8]) -> Option<(Entry, &[u8])>
    ensures some { IfSome result (λ got. 2 ∷ bytes.now ≡ entry_bytes got.0 ++ got.1.now) }
    ensures is_record { IfSome result (λ got. IsRecord got.0) }
    ensures none { IfNone result (NoRecordAhead (2 ∷ bytes.now)) }
{
    let (session, rest) = take_u64(bytes)?;
    let (app, rest) = take_u8(rest)?;
    Some((Entry::Opened { session, app }, rest))
}

/// A Closed behind its kind, and what follows it.
#[tactic(auto, using(crate::proofs::NoRecord::no_closed))]
fn take_closed(bytes: &[u8]) -> Option<(Entry, &[u8])>
    ensures some { IfSome result (λ got. 3 ∷ bytes.now ≡ entry_bytes got.0 ++ got.1.now) }
    ensures is_record { IfSome result (λ got. IsRecord got.0) }
    ensures none { IfNone result (NoRecordAhead (3 ∷ bytes.now)) }
{
    let (session, rest) = take_u64(bytes)?;
    Some((Entry::Closed { session }, rest))
}

/// An Update behind its kind, and what follows it.
fn take_update(alloc: Global, bytes: &[u8]) -> Result<(Entry, &[u8]), FieldError>
    ensures some { IfOk result (λ got. 4 ∷ bytes.now ≡ entry_bytes got.0 ++ got.1.now) }
    ensures is_record { IfOk result (λ got. IsRecord got.0) }
    ensures none { result ≡ Err FieldError.NoField → NoRecordAhead (4 ∷ bytes.now) }
{
    let (head, rest) = take_item_head(bytes).ok_or(FieldError::NoField)?;
    let (op, rest) = take_op(alloc, rest)?;
    if !is_record_op(head.txn, &op) {
        return Err(FieldError::NoField);
    }
    let entry = Entry::Update {
        session: head.session,
        w: head.w,
        job: head.job,
        txn: head.txn,
        op,
    };
    Ok((entry, rest))
}

/// A Commit behind its kind, and what follows it.
#[tactic(auto, using(crate::proofs::NoRecord::no_commit))]
fn take_commit(bytes: &[u8]) -> Option<(Entry, &[u8])>
    ensures some { IfSome result (λ got. 5 ∷ bytes.now ≡ entry_bytes got.0 ++ got.1.now) }
    ensures is_record { IfSome result (λ got. IsRecord got.0) }
    ensures none { IfNone result (NoRecordAhead (5 ∷ bytes.now)) }
{
    let (head, rest) = take_item_head(bytes)?;
    let entry = Entry::Commit {
        session: head.session,
        w: head.w,
        job: head.job,
        txn: head.txn,
    };
    Some((entry, rest))
}

/// A Rollback behind its kind, and what follows it.
#[tactic(auto, using(crate::proofs::NoRecord::no_rollback))]
fn take_rollback(bytes: &[u8]) -> Option<(Entry, &[u8])>
    ensures some { IfSome result (λ got. 6 ∷ bytes.now ≡ entry_bytes got.0 ++ got.1.now) }
    ensures is_record { IfSome result (λ got. IsRecord got.0) }
    ensures none { IfNone result (NoRecordAhead (6 ∷ bytes.now)) }
{
    let (head, rest) = take_item_head(bytes)?;
    let entry = Entry::Rollback {
        session: head.session,
        w: head.w,
        job: head.job,
        txn: head.txn,
    };
    Some((entry, rest))
}

/// The entry whose record stands in front, and what follows it.
fn take_entry(alloc: Global, bytes: &[u8]) -> Result<(Entry, &[u8]), FieldError>
    ensures some { IfOk result (λ got. bytes.now ≡ entry_bytes got.0 ++ got.1.now) }
    ensures is_record { IfOk result (λ got. IsRecord got.0) }
    ensures none { result ≡ Err FieldError.NoField → NoRecordAhead bytes.now }
{
    let (kind, rest) = take_u8(bytes).ok_or(FieldError::NoField)?;
    match kind {
        EPOCH => take_epoch(rest).ok_or(FieldError::NoField),
        OPENED => take_opened(rest).ok_or(FieldError::NoField),
        CLOSED => take_closed(rest).ok_or(FieldError::NoField),
        UPDATE => take_update(alloc, rest),
        COMMIT => take_commit(rest).ok_or(FieldError::NoField),
        ROLLBACK => take_rollback(rest).ok_or(FieldError::NoField),
        _ => Err(FieldError::NoField),
    }
}

/// The entry whose record stands in front of the bytes, and how many bytes it takes. It takes
/// no more memory than the bytes that stand there justify.
pub fn read_entry(alloc: Global, bytes: &[u8]) -> Result<(Entry, usize), RecordError>
    ensures ok { IfOk result (λ got. bytes.now ≡ entry_bytes got.0 ++ drop got.1 bytes.now) }
    ensures count { IfOk result (λ got. got.1 ≡ length (entry_bytes got.0)) }
    ensures within { IfOk result (λ got. got.1 ≤ length bytes.now) }
    ensures is_record { IfOk result (λ got. IsRecord got.0) }
    ensures not_a_record { result ≡ Err RecordError.NotARecord → NoRecordAhead bytes.now }
    ensures again { (entry : Entry) (rest : List ℕ) → IsRecord entry →
        bytes.now ≡ entry_bytes entry ++ rest → IfOk result (λ got. got.0 ≡ entry) }
{
    match take_entry(alloc, bytes) {
        Ok((entry, rest)) => Ok((entry, bytes.len() - rest.len())),
        Err(FieldError::NoField) => Err(RecordError::NotARecord),
        Err(FieldError::Memory(error)) => Err(RecordError::Memory(error)),
    }
}
