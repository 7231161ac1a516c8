use crate::key_bytes::KeyBytes;
use crate::value_bytes::ValueBytes;

/// A node, by its key, and its value.
#[derive(Debug, PartialEq, Eq, Drop)]
pub struct Pair {
    pub key: KeyBytes,
    pub value: ValueBytes,
}
