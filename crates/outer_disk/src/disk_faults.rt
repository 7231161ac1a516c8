ghost use Rattle.std.specs.Prelude.{◌≡◌, ◌≤◌};
ghost use Rattle.std.specs.Bool.{OnTrue};
ghost use Rattle.outer_io.specs.Causes.{Rose};

use crate::halt::Halt;
use outer_io::FaultPlan;
use std::marker::Model;

/// Which calls of a disk in memory are to fail: those that are listed, by their numbers from 0, and all calls
/// while it has stopped. It counts the faults.
#[derive(Drop)]
pub struct DiskFaults {
    plan: FaultPlan,
    halt: Halt,
    stopped: u64,
}

impl Model for DiskFaults {
    ghost use Rattle.outer_disk.specs.Faults.{Faults};

    ghost Value = { Faults };

    ghost view = { λ f. record { plan = f.plan; halt = f.halt; stopped = f.stopped } };
}

impl DiskFaults {
    ghost use Rattle.outer_disk.specs.Faults.{fresh_faults, fault_count, fails, write_fails, after_other, after_write, after_crash};

    pub fn new(fail: Vec<u64>, stop: Option<u64>) -> DiskFaults
        ensures { result ≡ fresh_faults fail.items stop }
    {
        let halt = match stop {
            None => Halt::Never,
            Some(write) => Halt::AtWrite(write),
        };
        DiskFaults {
            plan: FaultPlan::new(fail),
            halt,
            stopped: 0,
        }
    }

    /// Counts a call that is no write, and answers whether it is to fail.
    pub fn is_next_to_fail(&mut self) -> bool
        ensures due { result ≡ fails self.old }
        ensures counted { self.new ≡ after_other self.old }
        ensures later { fault_count self.old ≤ fault_count self.new }
        ensures rose { OnTrue result (Rose (fault_count self.old) (fault_count self.new)) }
    {
        let is_due = self.plan.is_next_to_fail();
        if self.halt == Halt::Now {
            let stopped = self.stopped;
            self.stopped = stopped.saturating_add(1);
            return true;
        }
        is_due
    }

    /// Counts a write, and answers whether it is to fail.
    pub fn is_next_write_to_fail(&mut self) -> bool
        ensures due { result ≡ write_fails self.old }
        ensures counted { self.new ≡ after_write self.old }
        ensures later { fault_count self.old ≤ fault_count self.new }
        ensures rose { OnTrue result (Rose (fault_count self.old) (fault_count self.new)) }
    {
        match self.halt {
            Halt::AtWrite(0) => self.halt = Halt::Now,
            Halt::AtWrite(more) => self.halt = Halt::AtWrite(more - 1),
            Halt::Never | Halt::Now => {}
        }
        self.is_next_to_fail()
    }

    /// A crash ends a stop.
    pub fn end_stop(&mut self)
        ensures { self.new ≡ after_crash self.old }
    {
        if self.halt == Halt::Now {
            self.halt = Halt::Never;
        }
    }
}
