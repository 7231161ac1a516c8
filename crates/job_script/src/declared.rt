ghost use Rattle.std.specs.Prelude.{◌≡◌, ◌↔◌, IsTrue, IfOk};
ghost use Rattle.job_script.specs.Names.{names_of, has_name, index_of, HasRoom, server_of};
ghost use Rattle.job_script.specs.Scripts.{HasRoomFor, declared_by, nothing_declared, with_time};

use crate::declaration::Declaration;
use crate::global::{Global, Globals};
use crate::kind_names::KindNames;
use crate::name_kind::NameKind;
use crate::setting::Setting;
use plain_orders::{JobApps, Times};
use std::alloc::{AllocError, Global as Allocator};

/// The times of a script that sets none, in ticks.
const DEFAULT_TIMES: Times = Times {
    retry: 5,
    trouble: 60,
    recover: 1200,
    round: 60,
};

/// What the lines so far declare. Servers, application servers and jobs go by their indexes.
#[derive(Debug, Drop)]
pub struct Declared {
    pub servers: KindNames,
    pub apps: KindNames,
    pub jobs: KindNames,
    pub job_apps: JobApps,
    pub globals: Globals,
    pub times: Times,
    /// Whether a line that asks for something came, after which nothing may be declared.
    pub is_closed: bool,
}

/// One setting changed.
fn with_time(times: Times, setting: Setting, ticks: u64) -> Times
    ensures { result ≡ with_time times setting ticks }
{
    match setting {
        Setting::Retry => Times {
            retry: ticks,
            ..times
        },
        Setting::Trouble => Times {
            trouble: ticks,
            ..times
        },
        Setting::Recover => Times {
            recover: ticks,
            ..times
        },
        Setting::Round => Times {
            round: ticks,
            ..times
        },
    }
}

impl Declared {
    /// Nothing is declared.
    pub fn new(alloc: Allocator) -> Declared
        ensures { result ≡ nothing_declared }
    {
        Declared {
            servers: KindNames::new(alloc),
            apps: KindNames::new(alloc),
            jobs: KindNames::new(alloc),
            job_apps: JobApps::new(alloc),
            globals: Globals::new(alloc),
            times: DEFAULT_TIMES,
            is_closed: false,
        }
    }

    fn names(&self, kind: NameKind) -> &KindNames
        ensures { result.now ≡ names_of self.now kind }
    {
        match kind {
            NameKind::Server => &self.servers,
            NameKind::App => &self.apps,
            NameKind::Job => &self.jobs,
        }
    }

    /// Whether the name is declared, as whatever.
    #[tactic(auto, using(crate::proofs::NameLemmas::has_name_of))]
    pub fn has_name(&self, name: &[u8]) -> bool
        ensures { result ≡ has_name self.now name.now }
    {
        self.servers.has(name) || self.apps.has(name) || self.jobs.has(name)
    }

    /// The index of a name that is declared as one of this kind.
    pub fn index_of(&self, kind: NameKind, name: &[u8]) -> Option<u8>
        ensures { result ≡ index_of self.now kind name.now }
    {
        self.names(kind).index_of(name)
    }

    /// Whether one more of this kind may be declared.
    pub fn has_room(&self, kind: NameKind) -> bool
        ensures { IsTrue result ↔ HasRoom self.now kind }
    {
        match kind {
            NameKind::Server => self.servers.len() < 16,
            NameKind::App => self.apps.len() < 16,
            NameKind::Job => self.jobs.len() < 256,
        }
    }

    /// The data server of a declared global.
    pub fn server_of(&self, name: &[u8]) -> Option<u8>
        ensures { result ≡ server_of self.now.globals name.now }
    {
        for global in self.globals.as_slice() {
            if global.name.as_slice() == name {
                return Some(global.server);
            }
        }
        None
    }

    /// With one declaration more; all is let go when out of memory.
    pub fn with(mut self, declaration: Declaration) -> Result<Declared, AllocError>
        requires { HasRoomFor self declaration }
        ensures { IfOk result (λ more. more ≡ declared_by self declaration) }
    {
        match declaration {
            Declaration::Server { name } => self.servers.push(name)?,
            Declaration::App { name } => self.apps.push(name)?,
            Declaration::Job { name, app } => {
                self.jobs.push(name)?;
                self.job_apps.push(app)?;
            }
            Declaration::Global { name, server } => self.globals.push(Global { name, server })?,
            Declaration::Time { setting, ticks } => self.times = with_time(
                self.times, setting, ticks,
            ),
        }
        Ok(self)
    }
}
