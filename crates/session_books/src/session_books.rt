ghost use Rattle.std.specs.Prelude.{◌≡◌, ◌+◌, ℕ, List, [], ◌∷◌, ◌++◌, IfOk, OnOk, length};
ghost use Rattle.plain_orders.specs.declared.entry.Entry.{Entry};
ghost use Rattle.plain_orders.specs.declared.entry.Entry.TheVariants.{Epoch, Opened, Closed};
ghost use Rattle.plain_orders.specs.declared.sum.Sum.{Sum};
ghost use Rattle.plain_orders.specs.Entries.{count, live, live_session, last_epoch};
ghost use Rattle.plain_orders.specs.Sessions.{app_in, live_sessions, place_of_epoch};
ghost use Rattle.session_books.specs.Places.{close_place};
ghost use Rattle.session_books.specs.Owing.{owed_entry};
ghost use Rattle.session_books.specs.Books.{owed_live, IsBooksOf, CanTake, IsItem};

use crate::owed::{Owed, owed_entry};
use crate::session_book::SessionBook;
use plain_orders::{Entry, Sum};
use std::alloc::{AllocError, Global};
use std::collections::BTreeMap;

/// What an ordered list of entries says of its sessions.
#[derive(Drop)]
pub struct SessionBooks {
    /// How many entries there are.
    length: u64,
    /// The number of the newest Epoch, or 0.
    epoch: u32,
    /// How many entries stand before each Epoch, by their numbers from 1.
    epochs: Vec<u64>,
    /// The live session of each application server that has one.
    apps: BTreeMap<u8, u64>,
    /// The live sessions, in the order of their Opens.
    live: Vec<u64>,
    /// All sessions that were opened.
    sessions: BTreeMap<u64, SessionBook>,
}

impl SessionBooks {
    /// Of no entry.
    pub fn new(alloc: Global) -> SessionBooks
        ensures { IsBooksOf [] result }
    {
        SessionBooks {
            length: 0,
            epoch: 0,
            epochs: Vec::new(alloc),
            apps: BTreeMap::new(alloc),
            live: Vec::new(alloc),
            sessions: BTreeMap::new(alloc),
        }
    }

    /// How many entries there are.
    pub fn length(&self) -> u64
        ensures { (es : List Entry) → IsBooksOf es self.now → result ≡ length es }
    {
        self.length
    }

    /// The number of the newest Epoch, or 0.
    pub fn last_epoch(&self) -> u32
        ensures { (es : List Entry) → IsBooksOf es self.now → result ≡ last_epoch es }
    {
        self.epoch
    }

    /// How many entries stand before the first Epoch above this one.
    pub fn place_of_epoch(&self, epoch: u32) -> Option<u64>
        ensures { (es : List Entry) → IsBooksOf es self.now → result ≡ place_of_epoch epoch 0 es }
    {
        self.epochs.get(epoch as usize).copied()
    }

    /// The live session of an application server.
    pub fn live_session(&self, app: u8) -> Option<u64>
        ensures { (es : List Entry) → IsBooksOf es self.now → result ≡ live_session es app }
    {
        self.apps.get(&app).copied()
    }

    /// The live sessions, in the order of their Opens.
    pub fn live_sessions(&self) -> &[u64]
        ensures { (es : List Entry) → IsBooksOf es self.now → result.now ≡ live_sessions es }
    {
        self.live.as_slice()
    }

    /// The greatest running number of a session's items, or 0.
    pub fn count(&self, session: u64) -> u64
        ensures { (es : List Entry) → IsBooksOf es self.now → result ≡ count es session }
    {
        match self.sessions.get(&session) {
            None => 0,
            Some(book) => book.count,
        }
    }

    /// Whether a session is opened and not closed after that.
    pub fn is_live(&self, session: u64) -> bool
        ensures { (es : List Entry) → IsBooksOf es self.now → result ≡ live es session }
    {
        match self.sessions.get(&session) {
            None => false,
            Some(book) => book.closed.is_none(),
        }
    }

    /// The application server that opened a session.
    pub fn app_of(&self, session: u64) -> Option<u8>
        ensures { (es : List Entry) → IsBooksOf es self.now → result ≡ app_in es session }
    {
        match self.sessions.get(&session) {
            None => None,
            Some(book) => Some(book.app),
        }
    }

    /// Where a session's Close stands, the first entry being at 1.
    pub fn closed_at(&self, session: u64) -> Option<u64>
        ensures { (es : List Entry) → IsBooksOf es self.now → result ≡ close_place es session }
    {
        match self.sessions.get(&session) {
            None => None,
            Some(book) => book.closed,
        }
    }

    /// What the item of a live session with this running number is owed, if it is one that is answered.
    pub fn owed(&self, session: u64, w: u64) -> Option<Owed>
        ensures { (es : List Entry) → IsBooksOf es self.now
            → result ≡ owed_live es session w }
    {
        match self.sessions.get(&session) {
            None => None,
            Some(book) => book.owed.get(&w).copied(),
        }
    }

    /// Takes an entry that may follow, of which this is the sum.
    pub fn take(&mut self, alloc: Global, entry: &Entry, sum: Sum) -> Result<(), AllocError>
        ensures { OnOk result ((es : List Entry) → CanTake es entry.now sum self.old
            → IsBooksOf (es ++ entry.now ∷ []) self.new) }
    {
        match entry {
            Entry::Epoch { number } => self.take_epoch(*number),
            Entry::Opened { session, app } => self.take_open(alloc, *session, *app),
            Entry::Closed { session } => self.take_close(alloc, *session),
            Entry::Update { session, w, .. }
            | Entry::Commit { session, w, .. }
            | Entry::Rollback { session, w, .. } => {
                let at = self.next_place()?;
                self.take_item(*session, *w, at, owed_entry(entry, at, sum))
            }
        }
    }

    /// The place of the next entry.
    fn next_place(&self) -> Result<u64, AllocError>
        ensures { IfOk result (λ at. at ≡ self.now.length + 1) }
    {
        self.length.checked_add(1).ok_or(AllocError)
    }

    /// Takes an Epoch.
    fn take_epoch(&mut self, number: u32) -> Result<(), AllocError>
        ensures { OnOk result ((es : List Entry) (sum : Sum) → CanTake es (Epoch number) sum self.old
            → IsBooksOf (es ++ Epoch number ∷ []) self.new) }
    {
        let at = self.next_place()?;
        self.epochs.push(self.length)?;
        self.epoch = number;
        self.length = at;
        Ok(())
    }

    /// Takes an Open.
    fn take_open(&mut self, alloc: Global, session: u64, app: u8) -> Result<(), AllocError>
        ensures { OnOk result ((es : List Entry) (sum : Sum) → CanTake es (Opened session app) sum self.old
            → IsBooksOf (es ++ Opened session app ∷ []) self.new) }
    {
        let at = self.next_place()?;
        self.apps.insert(app, session)?;
        self.live.push(session)?;
        self.sessions.insert(session, SessionBook::new(alloc, app))?;
        self.length = at;
        Ok(())
    }

    /// Takes a Close.
    fn take_close(&mut self, alloc: Global, session: u64) -> Result<(), AllocError>
        ensures { OnOk result ((es : List Entry) (sum : Sum) → CanTake es (Closed session) sum self.old
            → IsBooksOf (es ++ Closed session ∷ []) self.new) }
    {
        let at = self.next_place()?;
        let Some(book) = self.sessions.get_mut(&session) else {
            return Ok(());
        };
        let app = book.close(alloc, at);
        self.apps.remove(&app);
        self.live.retain(|live| *live != session);
        self.length = at;
        Ok(())
    }

    /// Takes an item of a session at this place, with what it is owed.
    fn take_item(
        &mut self,
        session: u64,
        w: u64,
        at: u64,
        owed: Option<Owed>,
    ) -> Result<(), AllocError>
        requires { at ≡ self.old.length + 1 }
        ensures { OnOk result ((es : List Entry) (e : Entry) (sum : Sum) → CanTake es e sum self.old
            → IsItem session w e → owed ≡ owed_entry e at sum → IsBooksOf (es ++ e ∷ []) self.new) }
    {
        self.length = at;
        match self.sessions.get_mut(&session) {
            None => Ok(()),
            Some(book) => book.take_item(w, owed),
        }
    }
}
