ghost use Rattle.std.specs.Prelude.{◌≡◌, min, length, take};
ghost use Rattle.outer_io.specs.InMemory.{fresh_plan};

use crate::fault_plan::FaultPlan;
use crate::source::Source;
use crate::stops::Failed;
use std::marker::Model;

/// A source over memory. It tells what it has left, and fails at the listed calls.
#[derive(Drop)]
pub struct MemSource {
    bytes: Vec<u8>,
    taken: usize,
    plan: FaultPlan,
}

impl Model for MemSource {
    ghost use Rattle.std.specs.Prelude.{◌≤◌, drop, vec_len};
    ghost use Rattle.outer_io.specs.InMemory.{SourceState};

    ghost Value = { SourceState };

    ghost view = { λ s. record { left = drop s.taken s.bytes.items; plan = s.plan } };

    ghost invariant = { λ s. s.taken ≤ vec_len s.bytes };
}

impl MemSource {
    /// A source of these bytes, whose calls with the numbers in `fail` fail.
    pub fn new(bytes: Vec<u8>, fail: Vec<u64>) -> MemSource
        ensures left { result.left ≡ bytes.items }
        ensures plan { result.plan ≡ fresh_plan fail.items }
    {
        MemSource {
            bytes,
            taken: 0,
            plan: FaultPlan::new(fail),
        }
    }
}

/// Copies as many bytes as fit, and answers how many.
fn copy_front(from: &[u8], to: &mut [u8]) -> usize
    ensures count { result ≡ min (length from.now) (length to.old) }
    ensures copied { take result to.new ≡ take result from.now }
{
    let count = from.len().min(to.len());
    to[..count].copy_from_slice(&from[..count]);
    count
}

impl Source for MemSource {
    ghost use Rattle.std.specs.Prelude.{Some, ◌↔◌, IfOk, IsErr, IsTrue};
    ghost use Rattle.std.specs.Io.KnownBytes.{ReadConsumes};
    ghost use Rattle.outer_io.specs.Causes.{HasCause};
    ghost use Rattle.outer_io.specs.Plan.{is_due, after_call};

    ghost left = { λ s. Some s.left };

    ghost faults = { λ s. s.plan.faults };

    fn take(&mut self, buf: &mut [u8]) -> Result<usize, Failed>
        ensures bytes { ReadConsumes (Some self.old.left) (Some self.new.left) result buf.new }
        ensures cause { HasCause self.old.plan.faults self.new.plan.faults result }
        ensures count { IfOk result (λ n. n ≡ min (length self.old.left) (length buf.old)) }
        ensures due { IsErr result ↔ IsTrue (is_due self.old.plan) }
        ensures plan { self.new.plan ≡ after_call self.old.plan }
    {
        if self.plan.is_next_to_fail() {
            return Err(Failed);
        }
        let count = copy_front(&self.bytes[self.taken..], buf);
        self.taken += count;
        Ok(count)
    }
}

#[cfg(test)]
mod tests {
    use super::*;
    use std::test::Fail;

    #[test]
    fn its_bytes_come_in_order_and_a_listed_call_takes_nothing(
        rt: HostRuntime,
    ) -> Result<(), Fail> {
        let alloc = rt.alloc();
        let bytes = vec![in alloc; 7u8, 8, 9]?;
        let fail = vec![in alloc; 1u64, 4]?;
        let mut source = MemSource::new(bytes, fail);
        let turns = [
            (Ok(2), [7u8, 8]),
            (Err(Failed), [0, 0]),
            (Ok(1), [9, 0]),
            (Ok(0), [0, 0]),
            (Err(Failed), [0, 0]),
            (Ok(0), [0, 0]),
        ];
        for (answer, given) in turns {
            let mut buf = [0u8; 2];
            assert_eq!(rt; source.take(&mut buf), answer);
            assert_eq!(rt; buf, given);
        }
        Ok(())
    }
}
