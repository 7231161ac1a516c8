ghost use Rattle.std.specs.Prelude.{ℕ, ◌<◌, ◌≤◌, List, Option, length, IfOk};
ghost use Rattle.std.specs.Io.KnownBytes.{ReadConsumes};
ghost use Rattle.outer_io.specs.Causes.{HasCause};

use crate::stops::Failed;

/// A source of bytes.
pub trait Source {
    /// The bytes that it has left, where it tells.
    ghost left: { Self → Option (List ℕ) };

    /// How often it has failed. It never falls, and stays at the greatest u64.
    ghost faults: { Self → ℕ };

    /// Moves bytes from its front into `buf`, and answers how many. 0 is the end of input. Where it fails it
    /// has all that it had.
    fn take(&mut self, buf: &mut [u8]) -> Result<usize, Failed>
        requires { 0 < length buf.old }
        ensures within { IfOk result (λ n. n ≤ length buf.old) }
        ensures bytes { ReadConsumes (left self.old) (left self.new) result buf.new }
        ensures cause { HasCause (faults self.old) (faults self.new) result };
}
