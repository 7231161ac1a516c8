use crate::what::What;
use std::alloc::{AllocError, Global};
use subscript_keys::{KeyBytes, ValueBytes};

/// The key of a number, in the order of the numbers.
pub fn key_of(alloc: Global, number: u64) -> Result<KeyBytes, AllocError> {
    let mut bytes = Vec::with_capacity(alloc, 10)?;
    bytes.push(103)?;
    bytes.push(0)?;
    bytes.extend_from_slice(&number.to_be_bytes())?;
    Ok(KeyBytes::from_vec(bytes))
}

fn value_of(alloc: Global, length: u64) -> Result<ValueBytes, AllocError> {
    let mut bytes = Vec::new(alloc);
    for _ in 0..length {
        bytes.push(7)?;
    }
    Ok(ValueBytes::from_vec(bytes))
}

/// The number at a step of a walk in no order, which meets each once where the count is a power of ten.
fn scattered(step: u64, count: u64) -> u64 {
    if count == 0 {
        return 0;
    }
    step.wrapping_mul(7_368_787) % count
}

pub fn pairs_of(
    alloc: Global,
    what: What,
    count: u64,
    length: u64,
) -> Result<Vec<(KeyBytes, ValueBytes)>, AllocError> {
    let mut pairs = Vec::new(alloc);
    for step in 0..count {
        let number = match what {
            What::Rising => step,
            _ => scattered(step, count),
        };
        pairs.push((key_of(alloc, number)?, value_of(alloc, length)?))?;
    }
    Ok(pairs)
}

/// Each key, in no order.
pub fn keys_of(alloc: Global, count: u64) -> Result<Vec<KeyBytes>, AllocError> {
    let mut keys = Vec::new(alloc);
    for step in 0..count {
        keys.push(key_of(alloc, scattered(step, count))?)?;
    }
    Ok(keys)
}
