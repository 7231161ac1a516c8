ghost use Rattle.std.specs.Prelude.{◌≡◌, ◌<◌, [], ◌∷◌, ◌++◌, length, IfSome, OnOk, OnErr};
ghost use Rattle.std.specs.List.{list_any, position};
ghost use Rattle.job_script.specs.Names.{is_same};

use plain_orders::NameList;
use std::alloc::{AllocError, Global};
use std::marker::Model;
use subscript_keys::Name;

/// The declared names of one kind, at most 256, in their order. Contracts see it as the list of them, each as its
/// bytes.
#[derive(Debug, Drop)]
pub struct KindNames {
    names: NameList,
}

impl Model for KindNames {
    ghost use Rattle.std.specs.Prelude.{List, ℕ, ◌≤◌, length};

    ghost Value = { List (List ℕ) };

    ghost view = { λ n. n.names };

    ghost invariant = { λ n. length n.names ≤ 256 };
}

impl KindNames {
    pub fn new(alloc: Global) -> KindNames
        ensures { result ≡ [] }
    {
        KindNames {
            names: NameList::new(alloc),
        }
    }

    pub fn len(&self) -> usize
        ensures { result ≡ length self.now }
    {
        self.names.as_slice().len()
    }

    /// Whether the name is one of them.
    pub fn has(&self, name: &[u8]) -> bool
        ensures { result ≡ list_any (λ other. is_same other name.now) self.now }
    {
        self.names
            .as_slice()
            .iter()
            .any(|other| other.as_slice() == name)
    }

    fn place_of(&self, name: &[u8]) -> Option<usize>
        ensures value { result ≡ position (λ other. is_same other name.now) self.now }
        ensures within { IfSome result (λ place. place < 256) }
    {
        self.names
            .as_slice()
            .iter()
            .position(|other| other.as_slice() == name)
    }

    /// The index of the name, if it is one of them.
    pub fn index_of(&self, name: &[u8]) -> Option<u8>
        ensures { result ≡ position (λ other. is_same other name.now) self.now }
    {
        match self.place_of(name) {
            Some(place) => Some(place as u8),
            None => None,
        }
    }

    /// Puts one more at the end; it is let go when out of memory.
    pub fn push(&mut self, name: Name) -> Result<(), AllocError>
        requires { length self.old < 256 }
        ensures ok { OnOk result (self.new ≡ self.old ++ name ∷ []) }
        ensures err { OnErr result (self.new ≡ self.old) }
    {
        self.names.push(name)?;
        Ok(())
    }

    pub fn into_list(self) -> NameList
        ensures { result ≡ self }
    {
        let KindNames { names } = self;
        names
    }
}
