ghost use Rattle.std.specs.Prelude.{◌≡◌, List, [], ◌∷◌, ◌++◌, OnOk, OnErr};
ghost use Rattle.std.specs.Option.{option_copied};
ghost use Rattle.plain_orders.specs.declared.entry.Entry.{Entry};
ghost use Rattle.plain_orders.specs.declared.entry.Entry.TheVariants.{Epoch, Opened, Closed, Update, Commit, Rollback};
ghost use Rattle.plain_orders.specs.Entries.{last_epoch, live_session};
ghost use Rattle.plain_programs.specs.Indexes.{IsIndexedIf, Indexes, CanTake};

use crate::live_session::LiveSession;
use crate::transaction_name::TransactionName;
use plain_orders::{Entry, Op};
use std::alloc::{AllocError, Global};
use std::collections::{BTreeMap, BTreeSet};

/// What the entries of an ordered list have left, where the next one is looked up.
#[derive(Debug, Drop)]
pub struct OrderIndex {
    /// The number of the newest Epoch, or 0.
    epoch: u32,
    /// The live session of each application server that has one.
    apps: BTreeMap<u8, u64>,
    /// The live sessions.
    sessions: BTreeMap<u64, LiveSession>,
}

impl OrderIndex {
    /// Of no entry.
    pub fn new(alloc: Global) -> OrderIndex
        ensures { Indexes [] result }
    {
        OrderIndex {
            epoch: 0,
            apps: BTreeMap::new(alloc),
            sessions: BTreeMap::new(alloc),
        }
    }

    /// The number of the newest Epoch, or 0.
    pub fn last_epoch(&self) -> u32
        ensures { (es : List Entry) → Indexes es self.now → result ≡ last_epoch es }
    {
        self.epoch
    }

    /// The live session of an application server.
    pub fn session_of(&self, app: u8) -> Option<u64>
        ensures { (es : List Entry) → Indexes es self.now → result ≡ live_session es app }
    {
        self.apps.get(&app).copied()
    }

    /// A session, if it is live.
    pub fn session(&self, session: u64) -> Option<&LiveSession>
        ensures { (es : List Entry) → Indexes es self.now → IsIndexedIf es session (option_copied result) }
    {
        self.sessions.get(&session)
    }

    /// Takes an entry that may follow. Out of memory, it says of the entries what it said before.
    pub fn take(&mut self, alloc: Global, entry: &Entry) -> Result<(), AllocError>
        ensures ok { OnOk result ((es : List Entry) → CanTake es entry.now self.old
            → Indexes (es ++ entry.now ∷ []) self.new) }
        ensures err { OnErr result ((es : List Entry) → CanTake es entry.now self.old → Indexes es self.new) }
    {
        match entry {
            Entry::Epoch { number } => self.epoch = *number,
            Entry::Opened { session, app } => self.take_open(alloc, *session, *app)?,
            Entry::Closed { session } => self.take_close(*session),
            Entry::Update {
                session,
                w,
                job,
                txn,
                op,
            } => self.take_update(*session, *w, TransactionName::new(*job, *txn), op)?,
            Entry::Commit {
                session,
                w,
                job,
                txn,
            }
            | Entry::Rollback {
                session,
                w,
                job,
                txn,
            } => self.take_end(*session, *w, TransactionName::new(*job, *txn)),
        }
        Ok(())
    }

    /// Takes an Open.
    fn take_open(&mut self, alloc: Global, session: u64, app: u8) -> Result<(), AllocError>
        ensures ok { OnOk result ((es : List Entry) → CanTake es (Opened session app) self.old
            → Indexes (es ++ Opened session app ∷ []) self.new) }
        ensures err { OnErr result ((es : List Entry) → CanTake es (Opened session app) self.old
            → Indexes es self.new) }
    {
        self.apps.insert(app, session)?;
        let live = LiveSession {
            app,
            count: 0,
            begun: BTreeSet::new(alloc),
        };
        if self.sessions.insert(session, live).is_err() {
            self.apps.remove(&app);
            return Err(AllocError);
        }
        Ok(())
    }

    /// Takes a Close.
    fn take_close(&mut self, session: u64)
        ensures { (es : List Entry) → CanTake es (Closed session) self.old
            → Indexes (es ++ Closed session ∷ []) self.new }
    {
        if let Some(live) = self.sessions.remove(&session) {
            self.apps.remove(&live.app);
        }
    }

    /// Takes an Update.
    fn take_update(
        &mut self,
        session: u64,
        w: u64,
        name: TransactionName,
        op: &Op,
    ) -> Result<(), AllocError>
        ensures ok { OnOk result ((es : List Entry) → CanTake es (Update session w name.job name.txn op.now) self.old
            → Indexes (es ++ Update session w name.job name.txn op.now ∷ []) self.new) }
        ensures err { OnErr result ((es : List Entry) → CanTake es (Update session w name.job name.txn op.now) self.old
            → Indexes es self.new) }
    {
        match self.sessions.get_mut(&session) {
            None => Ok(()),
            Some(live) => live.take_update(w, name, op),
        }
    }

    /// Takes a Commit or Rollback.
    fn take_end(&mut self, session: u64, w: u64, name: TransactionName)
        ensures commit { (es : List Entry) → CanTake es (Commit session w name.job name.txn) self.old
            → Indexes (es ++ Commit session w name.job name.txn ∷ []) self.new }
        ensures rollback { (es : List Entry) → CanTake es (Rollback session w name.job name.txn) self.old
            → Indexes (es ++ Rollback session w name.job name.txn ∷ []) self.new }
    {
        if let Some(live) = self.sessions.get_mut(&session) {
            live.take_end(w, name);
        }
    }
}
