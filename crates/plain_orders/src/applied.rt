use crate::spans::Spans;
use crate::sum::Sum;

/// What an entry did to a store: the spans that it changed, and its sum if it is an increment.
#[derive(Debug, Drop)]
pub struct Applied {
    pub spans: Spans,
    pub sum: Sum,
}
