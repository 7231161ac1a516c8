ghost use Rattle.std.specs.Prelude.{◌≡◌, [], ◌∷◌, ◌++◌, OnOk, OnErr};

use std::alloc::{AllocError, Global};
use std::marker::Model;
use subscript_keys::Span;

/// Spans of keys, in some order. Contracts see it as the list of them.
#[derive(Debug, Drop)]
pub struct Spans {
    items: Vec<Span>,
}

impl Model for Spans {
    ghost use Rattle.std.specs.Prelude.{List};
    ghost use Rattle.subscript_keys.specs.declared.span.Span.{Span};

    ghost Value = { List Span };

    ghost view = { λ l. l.items.items };
}

impl Spans {
    pub fn new(alloc: Global) -> Spans
        ensures { result ≡ [] }
    {
        Spans {
            items: Vec::new(alloc),
        }
    }

    pub fn from_vec(items: Vec<Span>) -> Spans
        ensures { result ≡ items.items }
    {
        Spans { items }
    }

    pub fn into_vec(self) -> Vec<Span>
        ensures { result.items ≡ self }
    {
        let Spans { items } = self;
        items
    }

    pub fn as_slice(&self) -> &[Span]
        ensures { result.now ≡ self.now }
    {
        self.items.as_slice()
    }

    /// Puts one more at the end; out of memory it is let go.
    pub fn push(&mut self, item: Span) -> Result<(), AllocError>
        ensures ok { OnOk result (self.new ≡ self.old ++ item ∷ []) }
        ensures err { OnErr result (self.new ≡ self.old) }
    {
        self.items.push(item)?;
        Ok(())
    }
}
