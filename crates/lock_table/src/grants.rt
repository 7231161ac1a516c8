ghost use Rattle.std.specs.Prelude.{◌≡◌, [], ◌∷◌, ◌++◌, OnOk, OnErr};

use crate::rows::Request;
use std::alloc::{AllocError, Global};
use std::marker::Model;

/// The requests that a call granted, in their order. Contracts see it as the list of them.
#[derive(Drop)]
pub struct Grants {
    requests: Vec<Request>,
}

impl Model for Grants {
    ghost use Rattle.std.specs.Prelude.{List};
    ghost use Rattle.lock_table.specs.declared.rows.Request.{Request};

    ghost Value = { List Request };

    ghost view = { λ g. g.requests.items };
}

impl Grants {
    /// None. It takes no memory.
    pub fn new(alloc: Global) -> Grants
        ensures { result ≡ [] }
    {
        Grants {
            requests: Vec::new(alloc),
        }
    }

    /// Puts one more at the end; out of memory it is let go.
    pub fn push(&mut self, request: Request) -> Result<(), AllocError>
        ensures ok { OnOk result (self.new ≡ self.old ++ request ∷ []) }
        ensures err { OnErr result (self.new ≡ self.old) }
    {
        self.requests.push(request)?;
        Ok(())
    }

    pub fn into_vec(self) -> Vec<Request>
        ensures { result.items ≡ self }
    {
        let Grants { requests } = self;
        requests
    }
}
