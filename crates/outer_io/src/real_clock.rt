use crate::clock::Clock;
use std::rt::Clock as SystemClock;
use std::time::Instant;

/// A clock that counts whole seconds since it was made. Where the system gives no time, it stands.
#[derive(Drop)]
pub struct RealClock<R> {
    rt: R,
    start: Option<Instant>,
    last: u64,
}

impl<R: SystemClock> RealClock<R> {
    pub fn new(rt: R) -> RealClock<R> {
        let start = Instant::now(&rt).ok();
        RealClock { rt, start, last: 0 }
    }
}

impl<R: SystemClock> Clock for RealClock<R> {
    ghost last = { λ c. c.last };

    fn now(&mut self) -> u64 {
        let seconds = match &self.start {
            Some(start) => match start.elapsed(&self.rt) {
                Ok(elapsed) => elapsed.as_secs(),
                Err(_) => self.last,
            },
            None => self.last,
        };
        self.last = self.last.max(seconds);
        self.last
    }
}

#[cfg(test)]
mod tests {
    use super::*;
    use crate::free_gate::FreeGate;
    use crate::gate::Gate;

    #[test]
    fn its_moments_begin_at_zero_and_never_fall(rt: HostRuntime) {
        let gate = FreeGate;
        let mut clock = RealClock::new(rt);
        gate.before(0, 1);
        let first = clock.now();
        gate.after(0, 1);
        let second = clock.now();
        assert!(rt; first <= second);
        assert!(rt; second < 60, "no minute passes between two calls");
    }
}
