ghost use Rattle.std.specs.Prelude.{◌≡◌, [], ◌∷◌, ◌++◌, OnOk, OnErr};

use std::alloc::{AllocError, Global};
use std::marker::Model;

/// For each job, in order, the index of its application server. Contracts see it as the list.
#[derive(Debug, Drop)]
pub struct JobApps {
    items: Vec<u8>,
}

impl Model for JobApps {
    ghost use Rattle.std.specs.Prelude.{List, ℕ};

    ghost Value = { List ℕ };

    ghost view = { λ l. l.items.items };
}

impl JobApps {
    pub fn new(alloc: Global) -> JobApps
        ensures { result ≡ [] }
    {
        JobApps {
            items: Vec::new(alloc),
        }
    }

    pub fn from_vec(items: Vec<u8>) -> JobApps
        ensures { result ≡ items.items }
    {
        JobApps { items }
    }

    pub fn into_vec(self) -> Vec<u8>
        ensures { result.items ≡ self }
    {
        let JobApps { items } = self;
        items
    }

    pub fn as_slice(&self) -> &[u8]
        ensures { result.now ≡ self.now }
    {
        self.items.as_slice()
    }

    /// Puts one more at the end; out of memory it is let go.
    pub fn push(&mut self, item: u8) -> Result<(), AllocError>
        ensures ok { OnOk result (self.new ≡ self.old ++ item ∷ []) }
        ensures err { OnErr result (self.new ≡ self.old) }
    {
        self.items.push(item)?;
        Ok(())
    }
}
