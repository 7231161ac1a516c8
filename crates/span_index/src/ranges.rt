ghost use Rattle.std.specs.Prelude.{◌≡◌, ◌≤◌, true, length, IfSome};
ghost use Rattle.std.specs.List.{insert};
ghost use Rattle.span_index.specs.Ranges.{begins_before, begins_by, ends_before, ends_by, holds_it, is_full, meets_it, AllFull, IsFront, IsRange, Rises};
ghost use Rattle.span_index.specs.declared.numbered.Numbered.{Numbered};

use crate::place::Place;
use subscript_keys::{KeyBytes, Span};

/// Places that follow one another: from the first one up to the last one, which is without.
#[derive(Clone, Copy)]
pub struct Range {
    pub first: usize,
    pub last: usize,
}

/// How many begin before the key.
fn count_begun_before(places: &[Place], key: &KeyBytes) -> usize
    requires { Rises places.now }
    ensures { IsFront (begins_before key.now) places.now result }
{
    places.partition_point(|place| place.inside().span.lo < *key)
}

/// How many begin at the key or before it.
fn count_begun_by(places: &[Place], key: &KeyBytes) -> usize
    requires { Rises places.now }
    ensures { IsFront (begins_by key.now) places.now result }
{
    places.partition_point(|place| place.inside().span.lo <= *key)
}

/// How many end before the key.
fn count_ended_before(places: &[Place], key: &KeyBytes) -> usize
    requires { Rises places.now }
    ensures { IsFront (ends_before key.now) places.now result }
{
    places.partition_point(|place| place.inside().span.hi < *key)
}

/// How many end at the key or before it.
fn count_ended_by(places: &[Place], key: &KeyBytes) -> usize
    requires { Rises places.now }
    ensures { IsFront (ends_by key.now) places.now result }
{
    places.partition_point(|place| place.inside().span.hi <= *key)
}

/// The places whose spans meet this one.
pub fn meeting(places: &[Place], span: &Span) -> Range
    requires rises { Rises places.now }
    requires full { AllFull places.now }
    ensures { IsRange (meets_it span.now) places.now result.first result.last }
{
    if !is_full(span) {
        return Range { first: 0, last: 0 };
    }
    let first = count_ended_by(places, &span.lo);
    let last = count_begun_before(places, &span.hi);
    Range {
        first,
        last: first.max(last),
    }
}

/// The places whose spans hold the key.
pub fn holding(places: &[Place], key: &KeyBytes) -> Range
    requires rises { Rises places.now }
    ensures { IsRange (holds_it key.now) places.now result.first result.last }
{
    let first = count_ended_by(places, key);
    let last = count_begun_by(places, key);
    Range {
        first,
        last: first.max(last),
    }
}

/// Where a span can stand so that they still follow one another.
pub fn place_for(places: &[Place], span: &Span) -> Option<usize>
    requires { Rises places.now }
    ensures fits { IfSome result (λ at. at ≤ length places.now) }
    ensures full { IfSome result (λ _. is_full span.now ≡ true) }
    ensures rises { IfSome result (λ at. (x : Numbered) → x.span ≡ span.now → Rises (insert places.now at x)) }
{
    if !is_full(span) {
        return None;
    }
    let at = count_begun_before(places, &span.lo).max(count_ended_before(places, &span.hi));
    if at <= count_begun_by(places, &span.lo) && at <= count_ended_by(places, &span.hi) {
        return Some(at);
    }
    None
}

/// Whether some byte string is in the span.
fn is_full(span: &Span) -> bool
    ensures { result ≡ is_full span.now }
{
    span.lo < span.hi
}
