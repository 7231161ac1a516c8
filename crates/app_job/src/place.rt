ghost use Rattle.std.specs.Prelude.{◌≡◌, [], ◌∷◌, ◌++◌, OnOk, OnErr};

use std::alloc::{AllocError, Global};
use std::marker::Model;

/// A number at a data server: the running number of what was issued there (an update, an increment, a Commit or a
/// Rollback), or a position in the server's update list.
#[derive(Clone, Copy, Debug, PartialEq, Eq)]
pub struct Place {
    pub server: u8,
    pub number: u64,
}

/// Places, by data server. Contracts see them as the list.
#[derive(Debug, Drop)]
pub struct Places {
    items: Vec<Place>,
}

impl Model for Places {
    ghost use Rattle.std.specs.Prelude.{List};
    ghost use Rattle.app_job.specs.declared.place.Place.{Place};

    ghost Value = { List Place };

    ghost view = { λ p. p.items.items };
}

impl Places {
    pub fn new(alloc: Global) -> Places
        ensures { result ≡ [] }
    {
        Places {
            items: Vec::new(alloc),
        }
    }

    pub fn as_slice(&self) -> &[Place]
        ensures { result.now ≡ self.now }
    {
        self.items.as_slice()
    }

    /// Puts one more at the end. Out of memory, nothing changes.
    pub fn push(&mut self, place: Place) -> Result<(), AllocError>
        ensures ok { OnOk result (self.new ≡ self.old ++ place ∷ []) }
        ensures err { OnErr result (self.new ≡ self.old) }
    {
        self.items.push(place)?;
        Ok(())
    }
}
