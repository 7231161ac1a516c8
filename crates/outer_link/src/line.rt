ghost use Rattle.std.specs.Prelude.{◌≡◌, ◌++◌, min, length, take, OnOk, OnErr};
ghost use Rattle.outer_link.specs.Lines.{fresh_line, left, line_with, line_without};

use std::alloc::{AllocError, Global};
use std::marker::Model;

/// One direction of a connection: the bytes that were put, and how many of them, from the front, were taken.
#[derive(Drop)]
pub struct Line {
    bytes: Vec<u8>,
    taken: usize,
}

impl Model for Line {
    ghost use Rattle.std.specs.Prelude.{◌≤◌, vec_len};
    ghost use Rattle.outer_link.specs.Lines.{LineTold};

    ghost Value = { LineTold };

    ghost view = { λ l. record { put = l.bytes.items; taken = l.taken } };

    ghost invariant = { λ l. l.taken ≤ vec_len l.bytes };
}

impl Line {
    pub fn new(alloc: Global) -> Line
        ensures { result ≡ fresh_line }
    {
        Line {
            bytes: Vec::new(alloc),
            taken: 0,
        }
    }

    pub fn put(&mut self, part: &[u8]) -> Result<(), AllocError>
        ensures ok { OnOk result (self.new ≡ line_with self.old part.now) }
        ensures err { OnErr result (self.new ≡ self.old) }
    {
        self.bytes.extend_from_slice(part)
    }

    /// Moves bytes that were not taken into `buf`, as many as fit, and answers how many.
    pub fn take(&mut self, buf: &mut [u8]) -> usize
        ensures count { result ≡ min (length (left self.old)) (length buf.old) }
        ensures bytes { take result buf.new ≡ take result (left self.old) }
        ensures line { self.new ≡ line_without self.old result }
    {
        let count = copy_front(&self.bytes[self.taken..], buf);
        self.taken += count;
        count
    }
}

/// Copies as many bytes as fit, and answers how many.
fn copy_front(from: &[u8], to: &mut [u8]) -> usize
    ensures count { result ≡ min (length from.now) (length to.old) }
    ensures copied { take result to.new ≡ take result from.now }
{
    let count = from.len().min(to.len());
    to[..count].copy_from_slice(&from[..count]);
    count
}
