ghost use Rattle.std.specs.Prelude.{◌≡◌, IfOk};
ghost use Rattle.span_index.specs.SpanWords.{owned_of};

use crate::numbered::Numbered;
use crate::owned::Owned;
use std::alloc::{AllocError, Global};
use std::marker::Model;
use subscript_keys::Span;

/// A numbered span by its address, so that it is moved at the cost of a pointer. Contracts see the numbered span.
#[derive(Drop)]
pub struct Place {
    inside: Box<Numbered>,
}

impl Model for Place {
    ghost use Rattle.span_index.specs.declared.numbered.Numbered.{Numbered};

    ghost Value = { Numbered };

    ghost view = { λ p. p.inside.value };
}

impl Place {
    pub fn new(alloc: Global, number: u64, owner: u64, span: Span) -> Result<Place, AllocError>
        ensures { IfOk result (λ place. place ≡ record { number = number; owner = owner; span = span }) }
    {
        let inside = Box::new(
            alloc,
            Numbered {
                number,
                owner,
                span,
            },
        )?;
        Ok(Place { inside })
    }

    pub fn inside(&self) -> &Numbered
        ensures { result.now ≡ self.now }
    {
        &self.inside
    }

    pub fn into_owned(self) -> Owned
        ensures { result ≡ owned_of self }
    {
        let Place { inside } = self;
        let Numbered { owner, span, .. } = Box::into_inner(inside);
        Owned { owner, span }
    }
}
