ghost use Rattle.std.specs.Prelude.{◌≡◌};
ghost use Rattle.std.specs.List.Sorted.{IsNonDecreasing};
ghost use Rattle.outer_io.specs.InMemory.{next_time};

use crate::clock::Clock;
use std::marker::Model;
use std::vec::IntoIter;

/// A clock over memory: it tells its times in turn, and then its last one, or 0 where it has none.
#[derive(Drop)]
pub struct MemClock {
    times: IntoIter<u64>,
    last: u64,
}

impl Model for MemClock {
    ghost use Rattle.std.specs.Prelude.{◌∷◌};
    ghost use Rattle.std.specs.Vec.Iter.{into_iter_items};
    ghost use Rattle.std.specs.List.Sorted.{IsNonDecreasing};
    ghost use Rattle.outer_io.specs.InMemory.{ClockState};

    ghost Value = { ClockState };

    ghost view = { λ c. record { last = c.last; times = into_iter_items c.times } };

    ghost invariant = { λ c. IsNonDecreasing (c.last ∷ into_iter_items c.times) };
}

impl MemClock {
    /// A clock with these times, which never fall.
    pub fn new(times: Vec<u64>) -> MemClock
        requires { IsNonDecreasing times.items }
        ensures last { result.last ≡ 0 }
        ensures times { result.times ≡ times.items }
    {
        MemClock {
            times: times.into_iter(),
            last: 0,
        }
    }
}

impl Clock for MemClock {
    ghost use Rattle.std.specs.Prelude.{◌≤◌, drop};

    ghost last = { λ c. c.last };

    fn now(&mut self) -> u64
        ensures rising { self.old.last ≤ result }
        ensures told { self.new.last ≡ result }
        ensures value { result ≡ next_time self.old.last self.old.times }
        ensures left { self.new.times ≡ drop 1 self.old.times }
    {
        let Some(time) = self.times.next() else {
            return self.last;
        };
        self.last = time;
        time
    }
}

#[cfg(test)]
mod tests {
    use super::*;
    use std::test::Fail;

    #[test]
    fn its_times_come_in_turn_and_then_its_last(rt: HostRuntime) -> Result<(), Fail> {
        let mut clock = MemClock::new(vec![in rt.alloc(); 3u64, 3, 8]?);
        for told in [3, 3, 8, 8, 8] {
            assert_eq!(rt; clock.now(), told);
        }
        let mut standing = MemClock::new(Vec::new(rt.alloc()));
        assert_eq!(rt; standing.now(), 0);
        Ok(())
    }
}
