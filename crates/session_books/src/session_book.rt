ghost use Rattle.std.specs.Prelude.{◌≡◌, OnOk};
ghost use Rattle.session_books.specs.Books.{IsFresh, HasTaken, IsClosedFrom};

use crate::owed::Owed;
use std::alloc::{AllocError, Global};
use std::collections::BTreeMap;

/// What a session left in a list of entries.
#[derive(Drop)]
pub struct SessionBook {
    /// The application server of its Open.
    pub app: u8,
    /// The greatest running number of its items, or 0.
    pub count: u64,
    /// Where its Close stands.
    pub closed: Option<u64>,
    /// While it is live, what its items are owed, by their running numbers.
    pub owed: BTreeMap<u64, Owed>,
}

impl SessionBook {
    /// Of no item.
    pub fn new(alloc: Global, app: u8) -> SessionBook
        ensures { IsFresh app result }
    {
        SessionBook {
            app,
            count: 0,
            closed: None,
            owed: BTreeMap::new(alloc),
        }
    }

    /// Takes an item with the next running number.
    pub fn take_item(&mut self, w: u64, owed: Option<Owed>) -> Result<(), AllocError>
        ensures { OnOk result (HasTaken self.old w owed self.new) }
    {
        if let Some(owed) = owed {
            self.owed.insert(w, owed)?;
        }
        self.count = w;
        Ok(())
    }

    /// Takes the Close at this place, and answers the application server.
    pub fn close(&mut self, alloc: Global, at: u64) -> u8
        ensures closed { IsClosedFrom self.old at self.new }
        ensures app { result ≡ self.old.app }
    {
        self.closed = Some(at);
        self.owed = BTreeMap::new(alloc);
        self.app
    }
}
