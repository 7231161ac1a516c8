use subscript_keys::Span;

/// A span, and the number of whoever it belongs to.
#[derive(Drop)]
pub struct Owned {
    pub owner: u64,
    pub span: Span,
}
