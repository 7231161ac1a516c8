ghost use Rattle.std.specs.Prelude.{◌≤◌, IfOk, length};

use crate::retrying::read_retrying;
use crate::source::Source;
use crate::stops::Failed;
use crate::word::Word;
use std::fs::File;
use std::rt::Files;

/// A source over the file of this name, which it opens at its first take; so one that can't be opened
/// fails there. It tells nothing of what the file has.
#[derive(Drop)]
pub struct LazyFile<R: Files> {
    rt: R,
    name: Word,
    file: Option<R::File>,
    faults: u64,
}

impl<R: Files> LazyFile<R> {
    pub fn new(rt: R, name: Word) -> LazyFile<R> {
        LazyFile {
            rt,
            name,
            file: None,
            faults: 0,
        }
    }
}

impl<R: Files> Source for LazyFile<R> {
    ghost use Rattle.std.specs.Prelude.{None};

    ghost left = { λ _. None };

    ghost faults = { λ s. s.faults };

    fn take(&mut self, buf: &mut [u8]) -> Result<usize, Failed> {
        match read_from(&self.rt, self.name.as_str(), &mut self.file, buf) {
            Ok(count) => Ok(count),
            Err(Failed) => {
                self.faults = self.faults.saturating_add(1);
                Err(Failed)
            }
        }
    }
}

/// Reads from the file, which is opened where it isn't yet.
fn read_from<R: Files>(
    rt: &R,
    name: &str,
    file: &mut Option<R::File>,
    buf: &mut [u8],
) -> Result<usize, Failed>
    ensures { IfOk result (λ n. n ≤ length buf.old) }
{
    if file.is_none() {
        *file = Some(File::open(rt, name).map_err(|_| Failed)?);
    }
    match file {
        Some(file) => read_retrying(file, buf).map_err(|_| Failed),
        None => Err(Failed),
    }
}

#[cfg(test)]
mod tests {
    use super::*;
    use std::fs;
    use std::test::Fail;

    #[test]
    fn a_file_is_read_to_its_end_and_a_missing_one_fails(rt: HostRuntime) -> Result<(), Fail> {
        let alloc = rt.alloc();
        let name = "outer_io_lazy_file.bytes";
        fs::write(&rt, name, "abc")?;
        let mut there = LazyFile::new(rt, Word::from_string(String::from_str(alloc, name)?));
        for (count, given) in [(2, [97u8, 98]), (1, [99, 0]), (0, [0, 0])] {
            let mut buf = [0u8; 2];
            assert_eq!(rt; there.take(&mut buf), Ok(count));
            assert_eq!(rt; buf, given);
        }
        fs::remove_file(&rt, name)?;
        let missing = Word::from_string(String::from_str(alloc, name)?);
        assert_eq!(rt; LazyFile::new(rt, missing).take(&mut [0]), Err(Failed));
        Ok(())
    }
}
