ghost use Rattle.std.specs.Prelude.{◌≡◌, ◌↔◌, ◌++◌, Err, IsTrue, IfOk};
ghost use Rattle.subscript_keys.specs.Key.{IsKey};
ghost use Rattle.field_bytes.specs.Fields.{list_bytes, IsKeyField, NoneAhead};

use crate::field_error::FieldError;
use crate::list_fields::take_list;
use std::alloc::{AllocError, Global};
use subscript_keys::{KeyBytes, KeyError, decode};

/// Whether bytes are the key of some node.
fn is_key(alloc: Global, bytes: &[u8]) -> Result<bool, AllocError>
    ensures { IfOk result (λ is. IsTrue is ↔ IsKey bytes.now) }
{
    match decode(alloc, bytes) {
        Ok(_) => Ok(true),
        Err(KeyError::Memory(error)) => Err(error),
        Err(KeyError::NotAKey | KeyError::KeyTooLong | KeyError::EmptySubscript) => Ok(false),
    }
}

/// The key of some node, as bytes behind their count, and what follows it; no field where fewer bytes are left
/// or they are no key.
pub fn take_key(alloc: Global, bytes: &[u8]) -> Result<(KeyBytes, &[u8]), FieldError>
    ensures some { IfOk result (λ got. bytes.now ≡ list_bytes got.0 ++ got.1.now) }
    ensures key { IfOk result (λ got. IsKeyField got.0) }
    ensures none { result ≡ Err FieldError.NoField →
        NoneAhead list_bytes IsKeyField bytes.now }
{
    let (part, rest) = take_list(bytes).ok_or(FieldError::NoField)?;
    if !is_key(alloc, part)? {
        return Err(FieldError::NoField);
    }
    let key = Vec::from_slice(alloc, part)?;
    Ok((KeyBytes::from_vec(key), rest))
}
