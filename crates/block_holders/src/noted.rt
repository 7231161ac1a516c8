use subscript_keys::Span;

/// A span that a session was sent.
#[derive(Drop)]
pub struct Noted {
    pub session: u64,
    pub span: Span,
}
