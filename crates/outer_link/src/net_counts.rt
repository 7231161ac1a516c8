ghost use Rattle.std.specs.Prelude.{◌≡◌};
ghost use Rattle.outer_link.specs.Counts.{NoneFell, no_counts, with_fault, with_failed, with_idle_take, with_idle_put};

use std::marker::Model;

/// What the net in memory counts. Each count stays at the greatest u64.
#[derive(Drop)]
pub struct NetCounts {
    faults: u64,
    failed: u64,
    idle_takes: u64,
    idle_puts: u64,
}

impl Model for NetCounts {
    ghost use Rattle.outer_link.specs.Counts.{Counts};

    ghost Value = { Counts };

    ghost view = { λ c. record {
      faults = c.faults;
      failed = c.failed;
      idle_takes = c.idle_takes;
      idle_puts = c.idle_puts;
    } };
}

impl NetCounts {
    pub fn new() -> NetCounts
        ensures { result ≡ no_counts }
    {
        NetCounts {
            faults: 0,
            failed: 0,
            idle_takes: 0,
            idle_puts: 0,
        }
    }

    /// How many connects failed.
    pub fn failed(&self) -> u64
        ensures { result ≡ self.now.failed }
    {
        self.failed
    }

    pub fn add_fault(&mut self)
        ensures next { self.new ≡ with_fault self.old }
        ensures later { NoneFell self.old self.new }
    {
        let faults = self.faults;
        self.faults = faults.saturating_add(1);
    }

    pub fn add_failed(&mut self)
        ensures next { self.new ≡ with_failed self.old }
        ensures later { NoneFell self.old self.new }
    {
        let failed = self.failed;
        self.failed = failed.saturating_add(1);
    }

    pub fn add_idle_take(&mut self)
        ensures next { self.new ≡ with_idle_take self.old }
        ensures later { NoneFell self.old self.new }
    {
        let idle_takes = self.idle_takes;
        self.idle_takes = idle_takes.saturating_add(1);
    }

    pub fn add_idle_put(&mut self)
        ensures next { self.new ≡ with_idle_put self.old }
        ensures later { NoneFell self.old self.new }
    {
        let idle_puts = self.idle_puts;
        self.idle_puts = idle_puts.saturating_add(1);
    }
}
