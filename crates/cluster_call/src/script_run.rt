//! A run of a script: one data server over a list of entries, and its one job. The recorder takes an act only
//! where the plain machine does, so the trail is a run.
ghost use Rattle.std.specs.Prelude.{◌≡◌, true, false, [], ◌∷◌, OnOk, IfOk};
ghost use Rattle.cluster_call.specs.Running.{AddsServed, HasJob, IsAtRest};

use global_store::GlobalStore;
use plain_orders::{Act, Entries, Entry, Layout};
use plain_runs::Recorder;
use std::alloc::{AllocError, Global};

/// The only data server, application server and job.
pub const SERVER: u8 = 0;

pub const APP: u8 = 0;

pub const JOB: u16 = 0;

/// The only session: its Open is the second entry of the data server's list.
pub const SESSION: u64 = 2;

/// A run: the trail so far, the store of the data server's list, and where the data server, the pair and the job
/// stand.
#[derive(Drop)]
pub struct ScriptRun {
    pub recorder: Recorder,
    pub store: GlobalStore,
    /// The length of the data server's list, all of which is synced.
    pub length: u64,
    /// How many items the job issued.
    pub issued: u64,
    pub is_connected: bool,
}

impl ScriptRun {
    /// The run of a script with this layout, whose data server has opened on a fresh journal.
    pub fn open(alloc: Global, layout: Layout) -> Result<ScriptRun, AllocError>
        ensures stands { IfOk result IsAtRest }
        ensures layout { IfOk result (λ run. run.recorder.layout ≡ layout) }
        ensures acts { IfOk result (λ run. run.recorder.acts ≡ Act.Opened 0 [] ∷ []) }
    {
        let mut recorder = Recorder::new(alloc, layout);
        recorder.note(Act::Opened {
            server: SERVER,
            entries: Entries::new(alloc),
        })?;
        let mut store = GlobalStore::new(alloc)?;
        store.apply(alloc, &Entry::Epoch { number: 1 })?;
        Ok(ScriptRun {
            recorder,
            store,
            length: 1,
            issued: 0,
            is_connected: false,
        })
    }

    /// Connects the pair.
    fn connect(&mut self, alloc: Global) -> Result<(), AllocError>
        requires unmet { self.old.is_connected ≡ false }
        requires stands { IsAtRest self.old }
        requires job { HasJob self.old.recorder.layout }
        ensures stands { OnOk result (IsAtRest self.new) }
        ensures met { OnOk result (self.new.is_connected ≡ true) }
        ensures layout { self.new.recorder.layout ≡ self.old.recorder.layout }
        ensures adds { OnOk result (AddsServed self.old.recorder.layout self.old.recorder.acts self.new.recorder.acts) }
    {
        let entry = Entry::Opened {
            session: SESSION,
            app: APP,
        };
        self.store.apply(alloc, &entry)?;
        self.recorder.note(Act::Enter {
            server: SERVER,
            entry,
        })?;
        self.recorder.note(Act::Synced {
            server: SERVER,
            length: SESSION,
        })?;
        self.recorder.note(Act::Met {
            app: APP,
            server: SERVER,
            session: SESSION,
        })?;
        self.length = SESSION;
        self.issued = 0;
        self.is_connected = true;
        Ok(())
    }

    /// Connects the pair where it isn't connected yet.
    pub fn be_connected(&mut self, alloc: Global) -> Result<(), AllocError>
        requires stands { IsAtRest self.old }
        requires job { HasJob self.old.recorder.layout }
        ensures stands { OnOk result (IsAtRest self.new) }
        ensures met { OnOk result (self.new.is_connected ≡ true) }
        ensures layout { self.new.recorder.layout ≡ self.old.recorder.layout }
        ensures adds { OnOk result (AddsServed self.old.recorder.layout self.old.recorder.acts self.new.recorder.acts) }
    {
        if self.is_connected {
            return Ok(());
        }
        self.connect(alloc)
    }
}
