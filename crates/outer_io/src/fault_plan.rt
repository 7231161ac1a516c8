ghost use Rattle.std.specs.Prelude.{◌≡◌, ◌≤◌};
ghost use Rattle.std.specs.Bool.{OnTrue};
ghost use Rattle.outer_io.specs.Causes.{Rose};

use std::marker::Model;

/// Which calls of a device in memory are to fail, by their numbers from 0. It counts the calls, and those
/// that failed.
#[derive(Drop)]
pub struct FaultPlan {
    fail: Vec<u64>,
    calls: u64,
    faults: u64,
}

impl Model for FaultPlan {
    ghost use Rattle.outer_io.specs.Plan.{Plan};

    ghost Value = { Plan };

    ghost view = { λ p. record { fail = p.fail.items; calls = p.calls; faults = p.faults } };
}

impl FaultPlan {
    ghost use Rattle.outer_io.specs.Plan.{Plan, is_due, after_call};

    pub fn new(fail: Vec<u64>) -> FaultPlan
        ensures { result ≡ record { fail = fail.items; calls = 0; faults = 0 } }
    {
        FaultPlan {
            fail,
            calls: 0,
            faults: 0,
        }
    }

    /// Counts a call, and answers whether it is to fail.
    pub fn is_next_to_fail(&mut self) -> bool
        ensures due { result ≡ is_due self.old }
        ensures counted { self.new ≡ after_call self.old }
        ensures later { self.old.faults ≤ self.new.faults }
        ensures rose { OnTrue result (Rose self.old.faults self.new.faults) }
    {
        let is_due = self.fail.contains(&self.calls);
        self.calls = self.calls.saturating_add(1);
        let faults = self.faults;
        if is_due {
            self.faults = faults.saturating_add(1);
        }
        is_due
    }
}
