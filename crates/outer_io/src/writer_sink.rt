use crate::retrying::write_retrying;
use crate::sink::Sink;
use crate::stops::Stop;
use std::io::{ErrorKind, Write};

/// A sink over a writer, which it asks again after an interruption. It tells nothing of what the writer holds.
#[derive(Drop)]
pub struct WriterSink<W> {
    writer: W,
    faults: u64,
    refusals: u64,
}

impl<W> WriterSink<W> {
    pub fn new(writer: W) -> WriterSink<W> {
        WriterSink {
            writer,
            faults: 0,
            refusals: 0,
        }
    }
}

impl<W: Write> Sink for WriterSink<W> {
    ghost use Rattle.std.specs.Prelude.{None};

    ghost held = { λ _. None };

    ghost faults = { λ s. s.faults };

    ghost refusals = { λ s. s.refusals };

    fn put(&mut self, part: &[u8]) -> Result<usize, Stop> {
        match write_retrying(&mut self.writer, part) {
            Ok(0) => {
                self.refusals = self.refusals.saturating_add(1);
                Ok(0)
            }
            Ok(count) => Ok(count),
            Err(error) if error.kind() == ErrorKind::OutOfMemory => Err(Stop::Memory),
            Err(_) => {
                self.faults = self.faults.saturating_add(1);
                Err(Stop::Failed)
            }
        }
    }
}

#[cfg(test)]
mod tests {
    use super::*;
    use std::io;

    /// A writer that takes two bytes at its first call and then meets these fates.
    #[derive(Drop)]
    struct Faltering {
        calls: u8,
    }

    impl Write for Faltering {
        fn write(&mut self, buf: &[u8]) -> io::Result<usize> {
            let call = self.calls;
            self.calls = call.saturating_add(1);
            match call {
                0 => Ok(buf.len().min(2)),
                1 => Err(io::Error::from(ErrorKind::Interrupted)),
                2 => Ok(0),
                3 => Err(io::Error::from(ErrorKind::OutOfMemory)),
                4 => Err(io::Error::from(ErrorKind::BrokenPipe)),
                _ => Ok(buf.len()),
            }
        }

        fn flush(&mut self) -> io::Result<()> {
            Ok(())
        }
    }

    #[test]
    fn a_writer_that_is_interrupted_is_asked_again_and_one_that_stops_is_told_by_its_kind(
        rt: HostRuntime,
    ) {
        let mut sink = WriterSink::new(Faltering { calls: 0 });
        let answers = [Ok(2), Ok(0), Err(Stop::Memory), Err(Stop::Failed), Ok(3)];
        for answer in answers {
            assert_eq!(rt; sink.put(&[1, 2, 3]), answer);
        }
    }
}
