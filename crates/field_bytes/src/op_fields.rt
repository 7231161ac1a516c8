ghost use Rattle.std.specs.Prelude.{◌≡◌, ◌≢◌, ◌++◌, ◌∷◌, List, ℕ, ℤ, Err, OnOk, OnErr, IfOk};
ghost use Rattle.field_bytes.specs.Fields.{list_bytes, i64_bytes, op_bytes, IsKeyField, IsShortList, IsI64, IsOpField, HasShortLists, NoneAhead, BeginsAs};

use crate::field_error::FieldError;
use crate::key_fields::take_key;
use crate::list_fields::{put_list, take_list};
use crate::number_fields::{put_i64, put_u8, take_i64, take_u8};
use plain_orders::Op;
use std::alloc::{AllocError, Global};
use subscript_keys::ValueBytes;

const SET: u8 = 1;

const KILL: u8 = 2;

const ADD: u8 = 3;

/// Appends an operation: its kind, its key, and what is set or added. Out of memory, what was held
/// stays in front.
pub fn put_op(to: &mut Vec<u8>, op: &Op) -> Result<(), AllocError>
    requires { HasShortLists op.now }
    ensures ok { OnOk result (to.new.items ≡ to.old.items ++ op_bytes op.now) }
    ensures err { OnErr result (BeginsAs to.old.items to.new.items) }
{
    match op {
        Op::Set { key, value } => {
            put_u8(to, SET)?;
            put_list(to, key.as_slice())?;
            put_list(to, value.as_slice())
        }
        Op::Kill { key } => {
            put_u8(to, KILL)?;
            put_list(to, key.as_slice())
        }
        Op::Add { key, amount } => {
            put_u8(to, ADD)?;
            put_list(to, key.as_slice())?;
            put_i64(to, *amount)
        }
    }
}

/// A Set behind its kind, and what follows it.
fn take_set(alloc: Global, bytes: &[u8]) -> Result<(Op, &[u8]), FieldError>
    ensures some { IfOk result (λ got. 1 ∷ bytes.now ≡ op_bytes got.0 ++ got.1.now) }
    ensures field { IfOk result (λ got. IsOpField got.0) }
    ensures none { result ≡ Err FieldError.NoField → (key value rest : List ℕ) →
        IsKeyField key → IsShortList value →
        bytes.now ≢ list_bytes key ++ (list_bytes value ++ rest) }
{
    let (key, rest) = take_key(alloc, bytes)?;
    let (value, rest) = take_list(rest).ok_or(FieldError::NoField)?;
    let value = Vec::from_slice(alloc, value)?;
    let op = Op::Set {
        key,
        value: ValueBytes::from_vec(value),
    };
    Ok((op, rest))
}

/// A Kill behind its kind, and what follows it.
fn take_kill(alloc: Global, bytes: &[u8]) -> Result<(Op, &[u8]), FieldError>
    ensures some { IfOk result (λ got. 2 ∷ bytes.now ≡ op_bytes got.0 ++ got.1.now) }
    ensures field { IfOk result (λ got. IsOpField got.0) }
    ensures none { result ≡ Err FieldError.NoField →
        NoneAhead list_bytes IsKeyField bytes.now }
{
    let (key, rest) = take_key(alloc, bytes)?;
    Ok((Op::Kill { key }, rest))
}

/// An Add behind its kind, and what follows it.
fn take_add(alloc: Global, bytes: &[u8]) -> Result<(Op, &[u8]), FieldError>
    ensures some { IfOk result (λ got. 3 ∷ bytes.now ≡ op_bytes got.0 ++ got.1.now) }
    ensures field { IfOk result (λ got. IsOpField got.0) }
    ensures none { result ≡ Err FieldError.NoField → (key : List ℕ) (amount : ℤ) (rest : List ℕ) →
        IsKeyField key → IsI64 amount →
        bytes.now ≢ list_bytes key ++ (i64_bytes amount ++ rest) }
{
    let (key, rest) = take_key(alloc, bytes)?;
    let (amount, rest) = take_i64(rest).ok_or(FieldError::NoField)?;
    Ok((Op::Add { key, amount }, rest))
}

/// An operation, and what follows it; no field where none stands there.
pub fn take_op(alloc: Global, bytes: &[u8]) -> Result<(Op, &[u8]), FieldError>
    ensures some { IfOk result (λ got. bytes.now ≡ op_bytes got.0 ++ got.1.now) }
    ensures field { IfOk result (λ got. IsOpField got.0) }
    ensures none { result ≡ Err FieldError.NoField → NoneAhead op_bytes IsOpField bytes.now }
{
    let (kind, rest) = take_u8(bytes).ok_or(FieldError::NoField)?;
    match kind {
        SET => take_set(alloc, rest),
        KILL => take_kill(alloc, rest),
        ADD => take_add(alloc, rest),
        _ => Err(FieldError::NoField),
    }
}
