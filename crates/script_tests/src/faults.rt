//! What a fault of the source or the sink leaves.
use crate::stages::{DECLARED, FIRST, FIRST_OUTPUT, status_of};
use outer_io::{MemSink, Sink, Stop};
use std::alloc::{AllocError, Global};

#[test]
fn a_failing_take_is_a_read_fault(rt: HostRuntime) -> Result<(), AllocError> {
    let alloc = rt.alloc();
    // The text comes with the first take, and its end with the second.
    for (failing, want, line) in [
        (0, 5, "ecp: read fault\n"),
        (1, 5, "ecp: read fault\n"),
        (2, 0, FIRST_OUTPUT),
    ] {
        let mut sink = MemSink::new(alloc, Vec::new(alloc));
        let text = Vec::from_slice(alloc, FIRST.as_bytes())?;
        let status = status_of(alloc, text, &[failing], &mut sink)?;
        assert_eq!(rt; status, want, "take {failing}");
        assert!(rt; sink.bytes() == line.as_bytes(), "take {failing}");
    }
    Ok(())
}

/// A sink that takes at most `most` bytes of each piece, and stops at the put with the number `failing`.
#[derive(Drop)]
struct SlowSink {
    bytes: Vec<u8>,
    most: usize,
    puts: u64,
    failing: u64,
    faults: u64,
    refusals: u64,
}

impl SlowSink {
    fn new(alloc: Global, most: usize, failing: u64) -> SlowSink {
        SlowSink {
            bytes: Vec::new(alloc),
            most,
            puts: 0,
            failing,
            faults: 0,
            refusals: 0,
        }
    }
}

impl Sink for SlowSink {
    ghost use Rattle.std.specs.Prelude.{None};

    ghost held = { λ _. None };

    ghost faults = { λ s. s.faults };

    ghost refusals = { λ s. s.refusals };

    fn put(&mut self, part: &[u8]) -> Result<usize, Stop> {
        let number = self.puts;
        self.puts = number.saturating_add(1);
        if number == self.failing {
            self.faults = self.faults.saturating_add(1);
            return Err(Stop::Failed);
        }
        let count = part.len().min(self.most);
        if count == 0 {
            self.refusals = self.refusals.saturating_add(1);
            return Ok(0);
        }
        match self.bytes.extend_from_slice(&part[..count]) {
            Ok(()) => Ok(count),
            Err(_) => Err(Stop::Memory),
        }
    }
}

#[test]
fn a_failing_put_is_a_write_fault_and_leaves_a_front(rt: HostRuntime) -> Result<(), AllocError> {
    let alloc = rt.alloc();
    // Each put takes a hundred bytes; there are three of them.
    for (failing, want, held) in [
        (0, 6, 0),
        (1, 6, 100),
        (2, 6, 200),
        (3, 0, FIRST_OUTPUT.len()),
    ] {
        let mut sink = SlowSink::new(alloc, 100, failing);
        let text = Vec::from_slice(alloc, FIRST.as_bytes())?;
        let status = status_of(alloc, text, &[], &mut sink)?;
        assert_eq!(rt; status, want, "put {failing}");
        assert!(rt;
            Some(sink.bytes.as_slice()) == FIRST_OUTPUT.as_bytes().get(..held),
            "put {failing}"
        );
    }
    Ok(())
}

#[test]
fn a_sink_that_takes_nothing_is_a_write_fault(rt: HostRuntime) -> Result<(), AllocError> {
    let alloc = rt.alloc();
    let mut sink = SlowSink::new(alloc, 0, u64::MAX);
    let text = Vec::from_slice(alloc, FIRST.as_bytes())?;
    let status = status_of(alloc, text, &[], &mut sink)?;
    assert_eq!(rt; status, 6);
    assert_eq!(rt; sink.puts, 1);
    Ok(())
}

#[test]
fn a_fault_of_a_fault_line_leaves_the_status(rt: HostRuntime) -> Result<(), AllocError> {
    let alloc = rt.alloc();
    let other = format!(in alloc; "{DECLARED}pump\n")?;
    for (text, takes, want) in [(FIRST, 0, 5), (other.as_str(), 9, 3)] {
        let mut sink = SlowSink::new(alloc, 100, 0);
        let text = Vec::from_slice(alloc, text.as_bytes())?;
        let status = status_of(alloc, text, &[takes], &mut sink)?;
        assert_eq!(rt; status, want);
        assert_eq!(rt; sink.bytes.len(), 0);
    }
    Ok(())
}
