use subscript_keys::Span;

/// A span with its owner, and the running number with which it was put.
#[derive(Drop)]
pub struct Numbered {
    pub number: u64,
    pub owner: u64,
    pub span: Span,
}
