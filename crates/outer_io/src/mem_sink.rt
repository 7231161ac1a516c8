ghost use Rattle.std.specs.Prelude.{◌≡◌, [], length};
ghost use Rattle.outer_io.specs.InMemory.{fresh_plan};

use crate::fault_plan::FaultPlan;
use crate::sink::Sink;
use crate::stops::Stop;
use std::alloc::Global;
use std::marker::Model;

/// A sink over memory. It tells what it holds, takes each piece whole, and fails at the listed calls.
#[derive(Drop)]
pub struct MemSink {
    bytes: Vec<u8>,
    plan: FaultPlan,
}

impl Model for MemSink {
    ghost use Rattle.outer_io.specs.InMemory.{SinkState};

    ghost Value = { SinkState };

    ghost view = { λ s. record { held = s.bytes.items; plan = s.plan } };
}

impl MemSink {
    /// An empty sink, whose calls with the numbers in `fail` fail.
    pub fn new(alloc: Global, fail: Vec<u64>) -> MemSink
        ensures held { result.held ≡ [] }
        ensures plan { result.plan ≡ fresh_plan fail.items }
    {
        MemSink {
            bytes: Vec::new(alloc),
            plan: FaultPlan::new(fail),
        }
    }

    /// What it holds.
    pub fn bytes(&self) -> &[u8]
        ensures { result.now ≡ self.now.held }
    {
        self.bytes.as_slice()
    }
}

impl Sink for MemSink {
    ghost use Rattle.std.specs.Prelude.{Some, ◌<◌, ◌≤◌, ◌↔◌, ◌++◌, IfOk, IfErr, OnOk, OnErr, IsTrue};
    ghost use Rattle.outer_io.specs.Causes.{Rose};
    ghost use Rattle.outer_io.specs.Plan.{is_due, after_call};

    ghost held = { λ s. Some s.held };

    ghost faults = { λ s. s.plan.faults };

    ghost refusals = { λ _. 0 };

    fn put(&mut self, part: &[u8]) -> Result<usize, Stop>
        requires { 0 < length part.now }
        ensures whole { IfOk result (λ n. n ≡ length part.now) }
        ensures ok { OnOk result (self.new.held ≡ self.old.held ++ part.now) }
        ensures err { OnErr result (self.new.held ≡ self.old.held) }
        ensures faults { self.old.plan.faults ≤ self.new.plan.faults }
        ensures failed { IfErr result (λ stop. stop ≡ Stop.Failed
            → Rose self.old.plan.faults self.new.plan.faults) }
        ensures due { (result ≡ Err Stop.Failed) ↔ IsTrue (is_due self.old.plan) }
        ensures plan { self.new.plan ≡ after_call self.old.plan }
    {
        if self.plan.is_next_to_fail() {
            return Err(Stop::Failed);
        }
        match self.bytes.extend_from_slice(part) {
            Ok(()) => Ok(part.len()),
            Err(_) => Err(Stop::Memory),
        }
    }
}

#[cfg(test)]
mod tests {
    use super::*;
    use std::test::Fail;

    #[test]
    fn pieces_stand_in_order_and_a_listed_call_adds_nothing(rt: HostRuntime) -> Result<(), Fail> {
        let alloc = rt.alloc();
        let fail = vec![in alloc; 1u64]?;
        let mut sink = MemSink::new(alloc, fail);
        let turns = [
            (Ok(2), "ab", "ab"),
            (Err(Stop::Failed), "cd", "ab"),
            (Ok(1), "e", "abe"),
        ];
        for (answer, piece, held) in turns {
            let part = piece.as_bytes();
            assert!(rt; !part.is_empty());
            assert_eq!(rt; sink.put(part), answer, "at {piece}");
            assert_eq!(rt; sink.bytes(), held.as_bytes(), "at {piece}");
        }
        Ok(())
    }
}
