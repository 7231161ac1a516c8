ghost use Rattle.std.specs.Prelude.{◌≡◌, ℕ, ◌≤◌};

/// A clock, whose answers never fall.
pub trait Clock {
    /// The last moment that it told, or the least that it may tell first.
    ghost last: { Self → ℕ };

    /// The moment, in ticks.
    fn now(&mut self) -> u64
        ensures rising { last self.old ≤ result }
        ensures told { last self.new ≡ result };
}
