ghost use Rattle.std.specs.Prelude.{◌≡◌, ℕ, ◌<◌, ◌≤◌, List, Option, length, IfOk, IfErr};
ghost use Rattle.outer_io.specs.Causes.{Rose};
ghost use Rattle.outer_io.specs.Took.{Took};

use crate::stops::Stop;

/// A sink for bytes.
pub trait Sink {
    /// The bytes that it holds, where it tells.
    ghost held: { Self → Option (List ℕ) };

    /// How often it has failed. It never falls, and stays at the greatest u64.
    ghost faults: { Self → ℕ };

    /// How often it took nothing of a piece that isn't empty. It never falls, and stays at the greatest u64.
    ghost refusals: { Self → ℕ };

    /// Puts bytes from the front of `part` after those that it holds, and answers how many. Where it stops it
    /// may have taken some of them.
    fn put(&mut self, part: &[u8]) -> Result<usize, Stop>
        requires { 0 < length part.now }
        ensures within { IfOk result (λ n. n ≤ length part.now) }
        ensures bytes { Took (held self.old) (held self.new) result part.now }
        ensures faults { faults self.old ≤ faults self.new }
        ensures failed { IfErr result (λ stop. stop ≡ Stop.Failed → Rose (faults self.old) (faults self.new)) }
        ensures refusals { refusals self.old ≤ refusals self.new }
        ensures refused { IfOk result (λ n. n ≡ 0 → Rose (refusals self.old) (refusals self.new)) };
}
