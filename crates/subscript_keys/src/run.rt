use crate::pairs::Pairs;
use crate::span::Span;

/// All the pairs that a map has in a span.
#[derive(Drop)]
pub struct Run {
    pub span: Span,
    pub pairs: Pairs,
}
