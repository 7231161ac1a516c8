use crate::retrying::read_retrying;
use crate::source::Source;
use crate::stops::Failed;
use std::io::Read;

/// A source over a reader, which it asks again after an interruption. It tells nothing of what the reader has.
#[derive(Drop)]
pub struct ReaderSource<R> {
    reader: R,
    faults: u64,
}

impl<R> ReaderSource<R> {
    pub fn new(reader: R) -> ReaderSource<R> {
        ReaderSource { reader, faults: 0 }
    }
}

impl<R: Read> Source for ReaderSource<R> {
    ghost use Rattle.std.specs.Prelude.{None};

    ghost left = { λ _. None };

    ghost faults = { λ s. s.faults };

    fn take(&mut self, buf: &mut [u8]) -> Result<usize, Failed> {
        match read_retrying(&mut self.reader, buf) {
            Ok(count) => Ok(count),
            Err(_) => {
                self.faults = self.faults.saturating_add(1);
                Err(Failed)
            }
        }
    }
}

#[cfg(test)]
mod tests {
    use super::*;
    use std::io;
    use std::io::ErrorKind;
    use std::test::Fail;

    /// A reader that gives one byte, is interrupted, gives another, fails, and then is at its end.
    #[derive(Drop)]
    struct Faltering {
        calls: u8,
    }

    impl Read for Faltering {
        fn read(&mut self, buf: &mut [u8]) -> io::Result<usize> {
            let call = self.calls;
            self.calls = call.saturating_add(1);
            match (call, buf.split_first_mut()) {
                (0 | 2, Some((first, _))) => {
                    *first = 42 + call;
                    Ok(1)
                }
                (1, _) => Err(io::Error::from(ErrorKind::Interrupted)),
                (3, _) => Err(io::Error::from(ErrorKind::Other)),
                _ => Ok(0),
            }
        }
    }

    #[test]
    fn a_reader_that_is_interrupted_is_asked_again_and_one_that_fails_is_a_fault(rt: HostRuntime) {
        let mut source = ReaderSource::new(Faltering { calls: 0 });
        for (answer, given) in [(Ok(1), 42), (Ok(1), 44), (Err(Failed), 0), (Ok(0), 0)] {
            let mut buf = [0u8; 4];
            assert_eq!(rt; source.take(&mut buf), answer);
            assert_eq!(rt; buf, [given, 0, 0, 0]);
        }
    }
}
