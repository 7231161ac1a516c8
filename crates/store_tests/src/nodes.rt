ghost use Rattle.std.specs.Prelude.{◌≤◌};

use std::alloc::{AllocError, Global};
use subscript_keys::{Decimal, KEY_LIMIT, KeyBytes, Sub, ValueBytes, put_sub, take_sub};

/// A running number behind this one.
pub fn next_number(number: u64) -> u64 {
    number
        .wrapping_mul(6_364_136_223_846_793_005)
        .wrapping_add(1_442_695_040_888_963_407)
}

/// One of so many by a running number.
pub fn one_of(number: u64, many: u64) -> u64
    ensures { result ≤ many }
{
    if many == 0 {
        return 0;
    }
    (number / 8_589_934_592) % many
}

/// Appends a number as a subscript.
fn put_number(alloc: Global, to: &mut Vec<u8>, number: u64) -> Result<(), AllocError> {
    let text = format!(in alloc; "{number}")?;
    match Decimal::read(text.as_bytes()) {
        None => Ok(()),
        Some(number) => put_sub(to, &Sub::Num(number)),
    }
}

/// The subscript that stands first in these bytes.
pub fn sub_of(alloc: Global, bytes: &[u8]) -> Result<Option<Sub>, AllocError> {
    match take_sub(alloc, bytes)? {
        None => Ok(None),
        Some((sub, _rest)) => Ok(Some(sub)),
    }
}

/// The bytes of a number as a subscript.
pub fn sub_bytes(alloc: Global, number: u64) -> Result<Vec<u8>, AllocError> {
    let mut bytes = Vec::new(alloc);
    put_number(alloc, &mut bytes, number)?;
    Ok(bytes)
}

/// The bytes of the key of `^g`, of `^g(A)` or of `^g(A,B)`, and so on.
pub fn node_bytes(alloc: Global, subs: &[u64]) -> Result<Vec<u8>, AllocError> {
    let mut bytes = Vec::from_slice(alloc, b"g\x00")?;
    for sub in subs {
        put_number(alloc, &mut bytes, *sub)?;
    }
    Ok(bytes)
}

pub fn node_key(alloc: Global, subs: &[u64]) -> Result<KeyBytes, AllocError> {
    Ok(KeyBytes::from_vec(node_bytes(alloc, subs)?))
}

/// That node's key with a text behind it that makes it as long as a key may be.
pub fn long_key(alloc: Global, subs: &[u64]) -> Result<KeyBytes, AllocError> {
    let mut bytes = node_bytes(alloc, subs)?;
    bytes.push(0x40)?;
    for _ in 0..KEY_LIMIT {
        if bytes.len() >= KEY_LIMIT - 2 {
            break;
        }
        bytes.push(120)?;
    }
    bytes.push(0)?;
    bytes.push(1)?;
    Ok(KeyBytes::from_vec(bytes))
}

/// A value of so many bytes.
pub fn value_of(alloc: Global, length: u64) -> Result<ValueBytes, AllocError> {
    let mut bytes = Vec::new(alloc);
    for _ in 0..length {
        bytes.push(55)?;
    }
    Ok(ValueBytes::from_vec(bytes))
}
