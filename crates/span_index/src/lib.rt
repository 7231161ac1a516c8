//! Spans with their owners, which are found by where they begin. Contracts see a `SpanIndex` as the list of what was put,
//! in the order in which it was put. No clause says how long a call takes: those spans that follow one another by their
//! begins and by their ends alike are found by halving, and the others are gone through.
#![tactic(auto)]

mod found;
mod holding;
mod numbered;
mod owned;
mod place;
mod ranges;
mod span_index;
mod taking;

pub use found::Found;
pub use numbered::Numbered;
pub use owned::Owned;
pub use place::Place;
pub use span_index::SpanIndex;
