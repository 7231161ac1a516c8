ghost use Rattle.std.specs.Prelude.{◌≡◌, ◌+◌, ◌≤◌, ◌++◌, ◌==◌, ◌&&◌, true, false, [], ◌∷◌, length, map, IfOk, IfNone, IfSome, OnOk, OnErr};
ghost use Rattle.std.specs.List.{filter, list_any};
ghost use Rattle.end_words.specs.Runs.{meets};
ghost use Rattle.span_index.specs.SpanWords.{found_of, holds, is_owned_at, owned_in, owned_of, touched, untouched, without_owner};
ghost use Rattle.span_index.specs.Indexes.{IsIndex};

use crate::found::Found;
use crate::holding::{count_holding, find_holding};
use crate::place::Place;
use crate::ranges::{holding, meeting, place_for};
use crate::taking::{count_met, count_touched, find_met, take_ordered, take_others};
use std::alloc::{AllocError, Global};
use std::marker::Model;
use std::mem;
use subscript_keys::{KeyBytes, Span};

/// Spans with their owners.
#[derive(Drop)]
pub struct SpanIndex {
    /// Those that follow one another by their begins and by their ends, none of them empty.
    ordered: Vec<Place>,
    /// All others.
    others: Vec<Place>,
    /// The number of the next one.
    next: u64,
}

impl Model for SpanIndex {
    ghost use Rattle.std.specs.Prelude.{◌++◌, List};
    ghost use Rattle.span_index.specs.SpanWords.{owned_in};
    ghost use Rattle.span_index.specs.Indexes.{IsIndex};
    ghost use Rattle.span_index.specs.declared.owned.Owned.{Owned};

    ghost Value = { List Owned };

    ghost view = { λ s. owned_in (s.ordered.items ++ s.others.items) };

    ghost invariant = { λ s. IsIndex s.next s.ordered.items s.others.items };
}

impl SpanIndex {
    pub fn new(alloc: Global) -> SpanIndex
        ensures { result ≡ [] }
    {
        SpanIndex {
            ordered: Vec::new(alloc),
            others: Vec::new(alloc),
            next: 0,
        }
    }

    /// Puts one more. Past the greatest number it answers as where there is no memory.
    pub fn put(&mut self, owner: u64, span: Span) -> Result<(), AllocError>
        ensures ok { OnOk result (self.new ≡ self.old ++ record { owner = owner; span = span } ∷ []) }
        ensures err { OnErr result (self.new ≡ self.old) }
    {
        if self.next == u64::MAX {
            return Err(AllocError);
        }
        let place = Place::new(*self.ordered.allocator(), self.next, owner, span)?;
        put_place(&mut self.ordered, &mut self.others, place)?;
        self.next += 1;
        Ok(())
    }

    /// Whether the very span is there for the owner.
    pub fn is_there(&self, owner: u64, span: &Span) -> bool
        ensures { result ≡ list_any (is_owned_at owner span.now) self.now }
    {
        let near = meeting(self.ordered.as_slice(), span);
        if is_among(&self.ordered.as_slice()[near.first..near.last], owner, span) {
            return true;
        }
        is_among(self.others.as_slice(), owner, span)
    }

    /// How many meet one of the spans, at most.
    pub fn room_for(&self, spans: &[Span]) -> usize
        ensures { length (touched spans.now self.now) ≤ result }
    {
        let near = count_met(self.ordered.as_slice(), spans);
        let far = count_touched(self.others.as_slice(), spans);
        near.saturating_add(far)
    }

    /// Takes out those that meet one of the spans, in the order in which they were put.
    pub fn touched(&mut self, spans: &[Span]) -> Result<Vec<Place>, AllocError>
        ensures hits { IfOk result (λ hits. map owned_of hits.items ≡ touched spans.now self.old) }
        ensures ok { OnOk result (self.new ≡ untouched spans.now self.old) }
        ensures err { OnErr result (self.new ≡ self.old) }
    {
        let alloc = *self.ordered.allocator();
        let room = self.room_for(spans);
        if room == 0 {
            return Ok(Vec::new(alloc));
        }
        let mut hits = Vec::with_capacity(alloc, room)?;
        let kept = Vec::with_capacity(alloc, self.others.len())?;
        let others = mem::replace(&mut self.others, kept);
        take_ordered(&mut self.ordered, spans, &mut hits);
        take_others(others, spans, &mut hits, &mut self.others);
        hits.sort_unstable_by_key(|place| place.inside().number);
        Ok(hits)
    }

    /// The owner of one that meets the span.
    pub fn met(&self, span: &Span) -> Option<u64>
        ensures none { IfNone result (list_any (λ x. meets x.span span.now) self.now ≡ false) }
        ensures some { IfSome result (λ owner. list_any (λ x. x.owner == owner && meets x.span span.now) self.now ≡ true) }
    {
        let near = meeting(self.ordered.as_slice(), span);
        if near.first < near.last {
            return Some(self.ordered[near.first].inside().owner);
        }
        let place = find_met(self.others.as_slice(), span)?;
        Some(place.inside().owner)
    }

    /// Whose spans hold the key.
    pub fn holder(&self, key: &KeyBytes) -> Found
        ensures { result ≡ found_of (filter (holds key.now) self.now) }
    {
        let near = holding(self.ordered.as_slice(), key);
        let far = count_holding(self.others.as_slice(), key);
        if (near.last - near.first).saturating_add(far) > 1 {
            return Found::Often;
        }
        if near.first < near.last {
            return Found::Once(self.ordered[near.first].inside().owner);
        }
        match find_holding(self.others.as_slice(), key) {
            Some(place) => Found::Once(place.inside().owner),
            None => Found::Nowhere,
        }
    }

    /// Lets go those of an owner. It takes no memory.
    pub fn drop_owner(&mut self, owner: u64)
        ensures { self.new ≡ without_owner owner self.old }
    {
        self.ordered.retain(|place| place.inside().owner != owner);
        self.others.retain(|place| place.inside().owner != owner);
    }

    /// Lets all go.
    pub fn clear(&mut self)
        ensures { self.new ≡ [] }
    {
        self.ordered.clear();
        self.others.clear();
    }
}

/// Puts a place where it can stand among those that follow one another, or else among the others.
fn put_place(
    ordered: &mut Vec<Place>,
    others: &mut Vec<Place>,
    place: Place,
) -> Result<(), AllocError>
    requires { IsIndex place.number ordered.old.items others.old.items }
    ensures ok { OnOk result (owned_in (ordered.new.items ++ others.new.items) ≡ owned_in (ordered.old.items ++ others.old.items) ++ owned_of place ∷ []) }
    ensures index { OnOk result (IsIndex (place.number + 1) ordered.new.items others.new.items) }
    ensures err { OnErr result ((ordered.new.items ≡ ordered.old.items) × (others.new.items ≡ others.old.items)) }
{
    match place_for(ordered.as_slice(), &place.inside().span) {
        Some(at) => {
            ordered.insert(at, place)?;
            Ok(())
        }
        None => {
            others.push(place)?;
            Ok(())
        }
    }
}

/// Whether one is the owner's, of this very span.
fn is_among(places: &[Place], owner: u64, span: &Span) -> bool
    ensures { result ≡ list_any (λ x. is_owned_at owner span.now (owned_of x)) places.now }
{
    places.iter().any(|place| {
        let inside = place.inside();
        inside.owner == owner && inside.span.lo == span.lo && inside.span.hi == span.hi
    })
}
