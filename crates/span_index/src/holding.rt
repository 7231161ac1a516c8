ghost use Rattle.std.specs.Prelude.{◌≡◌, length};
ghost use Rattle.std.specs.List.{filter, find};
ghost use Rattle.std.specs.Option.{option_copied};
ghost use Rattle.end_words.specs.Runs.{contains};
ghost use Rattle.span_index.specs.Ranges.{holds_it};

use crate::place::Place;
use subscript_keys::{KeyBytes, Span};

/// Whether the key is in the span.
fn contains(span: &Span, key: &KeyBytes) -> bool
    ensures { result ≡ contains span.now key.now }
{
    span.contains(key)
}

/// How many places hold the key.
pub fn count_holding(places: &[Place], key: &KeyBytes) -> usize
    ensures { result ≡ length (filter (holds_it key.now) places.now) }
{
    places
        .iter()
        .filter(|place| contains(&place.inside().span, key))
        .count()
}

/// The first place that holds the key.
pub fn find_holding<'a>(places: &'a [Place], key: &KeyBytes) -> Option<&'a Place>
    ensures { option_copied result ≡ find (holds_it key.now) places.now }
{
    places
        .iter()
        .find(|place| contains(&place.inside().span, key))
}
