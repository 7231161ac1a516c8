ghost use Rattle.std.specs.Prelude.{◌≡◌, ◌+◌, ◌-◌, ◌≤◌, ◌++◌, [], length, take, drop, vec_len, vec_capacity};
ghost use Rattle.std.specs.List.{filter, find};
ghost use Rattle.std.specs.Option.{option_copied};
ghost use Rattle.std.specs.List.Sorted.{IsPermutation};
ghost use Rattle.end_words.specs.Runs.{meets};
ghost use Rattle.span_index.specs.Ranges.{AllFull, Rises, meets_it, stays, touches};

use crate::place::Place;
use crate::ranges::{Range, meeting};
use subscript_keys::Span;

/// Whether some byte string is in both spans.
pub fn meets(a: &Span, b: &Span) -> bool
    ensures { result ≡ meets a.now b.now }
{
    a.meets(b)
}

/// Whether one of the spans meets the place's.
pub fn is_touched(place: &Place, spans: &[Span]) -> bool
    ensures { result ≡ touches spans.now place.now }
{
    spans.iter().any(|span| meets(&place.inside().span, span))
}

/// The first place that meets the span.
pub fn find_met<'a>(places: &'a [Place], span: &Span) -> Option<&'a Place>
    ensures { option_copied result ≡ find (meets_it span.now) places.now }
{
    places
        .iter()
        .find(|place| meets(&place.inside().span, span))
}

/// How many places meet one of the spans, at most.
pub fn count_met(places: &[Place], spans: &[Span]) -> usize
    requires rises { Rises places.now }
    requires full { AllFull places.now }
    ensures all { length (filter (touches spans.now) places.now) ≤ result }
    ensures most { result ≤ length places.now }
{
    let most = places.len();
    let mut count = 0usize;
    for span in spans {
        let range = meeting(places, span);
        count = count.saturating_add(range.last - range.first).min(most);
    }
    count
}

/// How many meet one of the spans.
pub fn count_touched(places: &[Place], spans: &[Span]) -> usize
    ensures { result ≡ length (filter (touches spans.now) places.now) }
{
    places
        .iter()
        .filter(|place| is_touched(place, spans))
        .count()
}

/// Moves the places of a range behind the hits, which have room for them.
fn take_range(places: &mut Vec<Place>, range: Range, hits: &mut Vec<Place>)
    requires order { range.first ≤ range.last }
    requires fits { range.last ≤ vec_len places.old }
    requires room { vec_len hits.old + (range.last - range.first) ≤ vec_capacity hits.old }
    ensures places { places.new.items ≡ take range.first places.old.items ++ drop range.last places.old.items }
    ensures hits { hits.new.items ≡ hits.old.items ++ take (range.last - range.first) (drop range.first places.old.items) }
    ensures capacity { vec_capacity hits.new ≡ vec_capacity hits.old }
{
    for place in places.drain(range.first..range.last) {
        hits.push_reserved(place);
    }
}

/// Moves the places that meet one of the spans to the hits, which are none yet and have room for them.
pub fn take_ordered(places: &mut Vec<Place>, spans: &[Span], hits: &mut Vec<Place>)
    requires rises { Rises places.old.items }
    requires full { AllFull places.old.items }
    requires fresh { hits.old.items ≡ [] }
    requires room { length (filter (touches spans.now) places.old.items) ≤ vec_capacity hits.old }
    ensures places { places.new.items ≡ filter (stays spans.now) places.old.items }
    ensures hits { IsPermutation (filter (touches spans.now) places.old.items) hits.new.items }
    ensures capacity { vec_capacity hits.new ≡ vec_capacity hits.old }
{
    for span in spans {
        let range = meeting(places.as_slice(), span);
        take_range(places, range, hits);
    }
}

/// Moves those that meet one of the spans behind the hits, and the others behind those that are kept.
pub fn take_others(places: Vec<Place>, spans: &[Span], hits: &mut Vec<Place>, kept: &mut Vec<Place>)
    requires room { vec_len hits.old + length (filter (touches spans.now) places.items) ≤ vec_capacity hits.old }
    requires kept { vec_len kept.old + vec_len places ≤ vec_capacity kept.old }
    ensures hits { hits.new.items ≡ hits.old.items ++ filter (touches spans.now) places.items }
    ensures kept { kept.new.items ≡ kept.old.items ++ filter (stays spans.now) places.items }
{
    for place in places {
        if is_touched(&place, spans) {
            hits.push_reserved(place);
        } else {
            kept.push_reserved(place);
        }
    }
}
