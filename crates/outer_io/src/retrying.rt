//! One read or write that a signal may interrupt: it is tried again, as std's own loops do. After 2^64 - 1
//! interruptions in a row the interruption itself is the answer, and so a failure like others.
ghost use Rattle.std.specs.Prelude.{◌≤◌, IfOk, length};

use std::io;
use std::io::{ErrorKind, Read, Write};

/// The last answer, where it tries no more.
fn interrupted() -> io::Error {
    io::Error::from(ErrorKind::Interrupted)
}

/// Reads into `buf`, and answers how many bytes.
pub(crate) fn read_retrying<R: Read>(reader: &mut R, buf: &mut [u8]) -> io::Result<usize>
    ensures { IfOk result (λ n. n ≤ length buf.old) }
{
    for _turn in 0..u64::MAX {
        match reader.read(buf) {
            Ok(count) => return Ok(count),
            Err(error) => {
                if error.kind() != ErrorKind::Interrupted {
                    return Err(error);
                }
            }
        }
    }
    Err(interrupted())
}

/// Writes bytes from the front of `part`, and answers how many.
pub(crate) fn write_retrying<W: Write>(writer: &mut W, part: &[u8]) -> io::Result<usize>
    ensures { IfOk result (λ n. n ≤ length part.now) }
{
    for _turn in 0..u64::MAX {
        match writer.write(part) {
            Ok(count) => return Ok(count),
            Err(error) => {
                if error.kind() != ErrorKind::Interrupted {
                    return Err(error);
                }
            }
        }
    }
    Err(interrupted())
}
