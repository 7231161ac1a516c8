use subscript_keys::{KeyBytes, ValueBytes};

/// What an update does to a node, which goes by its encoded key.
#[derive(Clone, Debug, PartialEq, Eq, Drop)]
pub enum Op {
    Set { key: KeyBytes, value: ValueBytes },
    /// The node and its descendants go.
    Kill { key: KeyBytes },
    /// An increment by a whole number of at most `DIGIT_LIMIT` digits.
    Add { key: KeyBytes, amount: i64 },
}
