ghost use Rattle.std.specs.Prelude.{◌≡◌, ◌+◌, ◌≤◌, ◌++◌, [], map, vec_len, vec_capacity, IfOk, OnOk, OnErr};
ghost use Rattle.block_holders.specs.HolderWords.{forgotten, touched, untouched, with_noted};
ghost use Rattle.block_holders.specs.Notes.{noted_at};

use crate::drops::Drops;
use crate::noted::Noted;
use plain_orders::Spans;
use span_index::{Place, SpanIndex};
use std::alloc::{AllocError, Global};
use std::marker::Model;
use subscript_keys::Span;

/// The spans that sessions were sent and weren't told to drop since.
#[derive(Drop)]
pub struct Holders {
    /// The spans, each a session's.
    notes: SpanIndex,
    alloc: Global,
}

impl Model for Holders {
    ghost use Rattle.std.specs.Prelude.{List, map};
    ghost use Rattle.block_holders.specs.Notes.{noted_of};
    ghost use Rattle.block_holders.specs.declared.noted.Noted.{Noted};

    ghost Value = { List Noted };

    ghost view = { λ h. map noted_of h.notes };
}

impl Holders {
    pub fn new(alloc: Global) -> Holders
        ensures { result ≡ [] }
    {
        Holders {
            notes: SpanIndex::new(alloc),
            alloc,
        }
    }

    /// Notes that a session was sent a span. The very span that is noted for it already isn't noted again. Past the
    /// greatest number of notes it answers as where there is no memory.
    pub fn note(&mut self, session: u64, span: Span) -> Result<(), AllocError>
        ensures ok { OnOk result (self.new ≡ with_noted session span self.old) }
        ensures err { OnErr result (self.new ≡ self.old) }
    {
        if self.notes.is_there(session, &span) {
            return Ok(());
        }
        self.notes.put(session, span)?;
        Ok(())
    }

    /// What is to be dropped where these spans change: the notes that meet one of them, which are forgotten.
    pub fn touched(&mut self, spans: &Spans) -> Result<Drops, AllocError>
        ensures drops { IfOk result (λ drops. drops ≡ touched spans.now self.old) }
        ensures ok { OnOk result (self.new ≡ untouched spans.now self.old) }
        ensures err { OnErr result (self.new ≡ self.old) }
    {
        let room = self.notes.room_for(spans.as_slice());
        let mut drops = Vec::with_capacity(self.alloc, room)?;
        let hits = self.notes.touched(spans.as_slice())?;
        move_noted(hits, &mut drops);
        Ok(Drops::from_vec(drops))
    }

    /// Forgets all that was noted for a session.
    pub fn forget(&mut self, session: u64)
        ensures { self.new ≡ forgotten session self.old }
    {
        self.notes.drop_owner(session);
    }
}

/// Moves the hits, as notes, behind the drops, which have room for them.
fn move_noted(hits: Vec<Place>, drops: &mut Vec<Noted>)
    requires { vec_len drops.old + vec_len hits ≤ vec_capacity drops.old }
    ensures { drops.new.items ≡ drops.old.items ++ map noted_at hits.items }
{
    for place in hits {
        let owned = place.into_owned();
        let noted = Noted {
            session: owned.owner,
            span: owned.span,
        };
        drops.push_reserved(noted);
    }
}
