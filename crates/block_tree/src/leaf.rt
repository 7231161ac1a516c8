use subscript_keys::KeyBytes;

/// A leaf: where it begins, and how many bytes its pairs take in a block, at most.
#[derive(Drop)]
pub struct Leaf {
    pub lo: KeyBytes,
    pub bytes: usize,
}
