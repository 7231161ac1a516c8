ghost use Rattle.std.specs.Prelude.{◌≡◌, [], ◌∷◌, ◌++◌, OnOk, OnErr};

use std::alloc::{AllocError, Global as Allocator};
use std::marker::Model;
use subscript_keys::Name;

/// A declared global, by its name without the caret, and the index of its data server.
#[derive(Debug, Drop)]
pub struct Global {
    pub name: Name,
    pub server: u8,
}

/// Declared globals, in their order. Contracts see them as the list.
#[derive(Debug, Drop)]
pub struct Globals {
    items: Vec<Global>,
}

impl Model for Globals {
    ghost use Rattle.std.specs.Prelude.{List};
    ghost use Rattle.job_script.specs.declared.global.Global.{Global};

    ghost Value = { List Global };

    ghost view = { λ g. g.items.items };
}

impl Globals {
    pub fn new(alloc: Allocator) -> Globals
        ensures { result ≡ [] }
    {
        Globals {
            items: Vec::new(alloc),
        }
    }

    pub fn as_slice(&self) -> &[Global]
        ensures { result.now ≡ self.now }
    {
        self.items.as_slice()
    }

    /// Puts one more at the end; it is let go when out of memory.
    pub fn push(&mut self, global: Global) -> Result<(), AllocError>
        ensures ok { OnOk result (self.new ≡ self.old ++ global ∷ []) }
        ensures err { OnErr result (self.new ≡ self.old) }
    {
        self.items.push(global)?;
        Ok(())
    }
}
