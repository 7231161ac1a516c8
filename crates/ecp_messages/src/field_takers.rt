ghost use Rattle.std.specs.Prelude.{◌≡◌, ◌≢◌, ◌↔◌, ◌≤◌, ◌∷◌, [], ◌++◌, ℕ, Bool, List, length, IsTrue, IfOk, IfSome, IfNone};
ghost use Rattle.std.specs.Ordering.{nat_cmp};
ghost use Rattle.std.specs.Cmp.Lexicographic.{slice_cmp};
ghost use Rattle.std.specs.declared.cmp.Ordering.TheVariants.{Less};
ghost use Rattle.plain_orders.specs.declared.mode.Mode.{Mode};
ghost use Rattle.field_bytes.specs.Fields.{u8_bytes, u32_bytes, list_bytes, op_bytes, IsShortList, NoneAhead};
ghost use Rattle.ecp_messages.specs.declared.about.About.{About};
ghost use Rattle.ecp_messages.specs.Rows.{about_bytes, front_bytes, mode_bytes, wanted_bytes, IsChange, IsCount, IsFront, IsSought};

use crate::about::About;
use crate::front::Front;
use field_bytes::{FieldError, take_list, take_op, take_u8, take_u32, take_u64};
use plain_orders::{Mode, Op};
use std::alloc::Global;
use std::cmp::Ordering;
use subscript_keys::KeyBytes;

/// What follows the version, which is 1.
pub(crate) fn take_version(bytes: &[u8]) -> Option<&[u8]>
    ensures some { IfSome result (λ rest. bytes.now ≡ u8_bytes 1 ++ rest.now) }
    ensures none { IfNone result ((rest : List ℕ) → bytes.now ≢ u8_bytes 1 ++ rest) }
{
    let (version, rest) = take_u8(bytes)?;
    if version != 1 {
        return None;
    }
    Some(rest)
}

/// How a lock is held, and what follows it.
#[tactic(auto, unfolding(crate::specs::Rows::mode_bytes))]
pub(crate) fn take_mode(bytes: &[u8]) -> Option<(Mode, &[u8])>
    ensures some { IfSome result (λ got. bytes.now ≡ mode_bytes got.0 ++ got.1.now) }
    ensures none { IfNone result ((mode : Mode) (rest : List ℕ) →
        bytes.now ≢ mode_bytes mode ++ rest) }
{
    let (number, rest) = take_u8(bytes)?;
    match number {
        1 => Some((Mode::Exclusive, rest)),
        2 => Some((Mode::Shared, rest)),
        _ => None,
    }
}

/// Whether an Answer is wanted, and what follows.
#[tactic(auto, unfolding(crate::specs::Rows::wanted_bytes))]
pub(crate) fn take_wanted(bytes: &[u8]) -> Option<(bool, &[u8])>
    ensures some { IfSome result (λ got.
        bytes.now ≡ wanted_bytes got.0 ++ got.1.now) }
    ensures none { IfNone result ((wanted : Bool) (rest : List ℕ) →
        bytes.now ≢ wanted_bytes wanted ++ rest) }
{
    let (number, rest) = take_u8(bytes)?;
    match number {
        0 => Some((false, rest)),
        1 => Some((true, rest)),
        _ => None,
    }
}

/// What an Answer tells, and what follows it.
#[tactic(auto, unfolding(crate::specs::Rows::about_bytes))]
pub(crate) fn take_about(bytes: &[u8]) -> Option<(About, &[u8])>
    ensures some { IfSome result (λ got.
        bytes.now ≡ about_bytes got.0 ++ got.1.now) }
    ensures none { IfNone result ((about : About) (rest : List ℕ) →
        bytes.now ≢ about_bytes about ++ rest) }
{
    let (number, rest) = take_u8(bytes)?;
    match number {
        1 => Some((About::Counted, rest)),
        2 => Some((About::NotWhole, rest)),
        3 => Some((About::Range, rest)),
        4 => Some((About::Committed, rest)),
        5 => Some((About::RolledBack, rest)),
        6 => Some((About::Synced, rest)),
        _ => None,
    }
}

/// How often a lock is held, which is not 0, and what follows.
pub(crate) fn take_count(bytes: &[u8]) -> Option<(u32, &[u8])>
    ensures some { IfSome result (λ got. bytes.now ≡ u32_bytes got.0 ++ got.1.now) }
    ensures range { IfSome result (λ got. IsCount got.0) }
    ensures none { IfNone result (NoneAhead u32_bytes IsCount bytes.now) }
{
    let (count, rest) = take_u32(bytes)?;
    if count == 0 {
        return None;
    }
    Some((count, rest))
}

/// How far the list goes, and what follows.
pub(crate) fn take_front(bytes: &[u8]) -> Option<(Front, &[u8])>
    ensures some { IfSome result (λ got. bytes.now ≡ front_bytes got.0 ++ got.1.now) }
    ensures range { IfSome result (λ got. IsFront got.0) }
    ensures none { IfNone result (NoneAhead front_bytes IsFront bytes.now) }
{
    let (n, rest) = take_u64(bytes)?;
    let (w, rest) = take_u64(rest)?;
    let (s, rest) = take_u64(rest)?;
    Some((Front { n, w, s }, rest))
}

/// A copy of bytes behind their count, and what follows them.
pub(crate) fn take_part(alloc: Global, bytes: &[u8]) -> Result<(Vec<u8>, &[u8]), FieldError>
    ensures some { IfOk result (λ got. bytes.now ≡ list_bytes got.0.items ++ got.1.now) }
    ensures range { IfOk result (λ got. IsShortList got.0.items) }
    ensures none { result ≡ Err FieldError.NoField → NoneAhead list_bytes IsShortList bytes.now }
{
    let (part, rest) = take_list(bytes).ok_or(FieldError::NoField)?;
    let part = Vec::from_slice(alloc, part)?;
    Ok((part, rest))
}

/// Whether a Fetch may name bytes that stand in a field.
fn can_be_sought(key: &[u8]) -> bool
    ensures { IsTrue result ↔
        ((1 ≤ length key.now) × (slice_cmp nat_cmp key.now (0xFF ∷ []) ≡ Less)) }
{
    if key.is_empty() {
        return false;
    }
    key.cmp([0xFF].as_slice()).is_lt()
}

/// What a Fetch names, and what follows it.
pub(crate) fn take_sought(alloc: Global, bytes: &[u8]) -> Result<(KeyBytes, &[u8]), FieldError>
    ensures some { IfOk result (λ got. bytes.now ≡ list_bytes got.0 ++ got.1.now) }
    ensures range { IfOk result (λ got. IsSought got.0) }
    ensures none { result ≡ Err FieldError.NoField → NoneAhead list_bytes IsSought bytes.now }
{
    let (key, rest) = take_list(bytes).ok_or(FieldError::NoField)?;
    if !can_be_sought(key) {
        return Err(FieldError::NoField);
    }
    let key = Vec::from_slice(alloc, key)?;
    Ok((KeyBytes::from_vec(key), rest))
}

/// A Set or a Kill, and what follows it.
pub(crate) fn take_change(alloc: Global, bytes: &[u8]) -> Result<(Op, &[u8]), FieldError>
    ensures some { IfOk result (λ got. bytes.now ≡ op_bytes got.0 ++ got.1.now) }
    ensures range { IfOk result (λ got. IsChange got.0) }
    ensures none { result ≡ Err FieldError.NoField → NoneAhead op_bytes IsChange bytes.now }
{
    let (op, rest) = take_op(alloc, bytes)?;
    match op {
        Op::Add { .. } => Err(FieldError::NoField),
        op => Ok((op, rest)),
    }
}
