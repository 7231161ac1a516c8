ghost use Rattle.std.specs.Prelude.{◌≡◌, min, length, take, OnOk, OnErr};
ghost use Rattle.outer_link.specs.Lines.{fresh_lines, left, line_to, put_into, taken_from};

use crate::end::End;
use crate::line::Line;
use std::alloc::{AllocError, Global};
use std::marker::Model;

/// The two directions of a connection, each named for the end where bytes are put.
#[derive(Drop)]
pub struct Lines {
    from_app: Line,
    from_server: Line,
}

impl Model for Lines {
    ghost use Rattle.outer_link.specs.Lines.{LinesTold};

    ghost Value = { LinesTold };

    ghost view = { λ l. record { from_app = l.from_app; from_server = l.from_server } };
}

impl Lines {
    pub fn new(alloc: Global) -> Lines
        ensures { result ≡ fresh_lines }
    {
        Lines {
            from_app: Line::new(alloc),
            from_server: Line::new(alloc),
        }
    }

    /// Puts bytes at this end.
    pub fn put(&mut self, end: End, part: &[u8]) -> Result<(), AllocError>
        ensures ok { OnOk result (self.new ≡ put_into self.old end part.now) }
        ensures err { OnErr result (self.new ≡ self.old) }
    {
        match end {
            End::App => self.from_app.put(part),
            End::Server => self.from_server.put(part),
        }
    }

    /// Takes bytes at this end, as many as fit, and answers how many.
    pub fn take(&mut self, end: End, buf: &mut [u8]) -> usize
        ensures count { result ≡ min (length (left (line_to self.old end))) (length buf.old) }
        ensures bytes { take result buf.new ≡ take result (left (line_to self.old end)) }
        ensures lines { self.new ≡ taken_from self.old end result }
    {
        match end {
            End::App => self.from_server.take(buf),
            End::Server => self.from_app.take(buf),
        }
    }
}
