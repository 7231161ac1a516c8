ghost use Rattle.std.specs.Prelude.{◌≡◌, ◌↔◌, IsErr, IfErr};
ghost use Rattle.outer_io.specs.Causes.{HasCause};
ghost use Rattle.outer_disk.specs.Disk.{RoseBy};
ghost use Rattle.outer_disk.specs.FileDisk.{no_calls};

use crate::disk::Disk;
use outer_io::{Failed, Stop};
use std::fs::{OpenFile, OpenOptions};
use std::io::{Read, Seek, SeekFrom, Write};
use std::marker::Model;
use std::rt::Files;

/// A disk over a file, which it opens at its first call and makes where it is missing. With no path each call
/// fails. It tells nothing of what the file has, nor of what a crash leaves. Contracts see how often it failed,
/// and how many calls it took. Where a signal interrupts a read, a write, a cut or a sync, std tries it again.
#[derive(Drop)]
pub struct FileDisk<R: Files> {
    rt: R,
    path: Option<String>,
    file: Option<R::File>,
    faults: u64,
    calls: u64,
}

impl<R: Files> Model for FileDisk<R> {
    ghost use Rattle.outer_disk.specs.FileDisk.{FileCounts};

    ghost Value = { FileCounts };

    ghost view = { λ d. record { faults = d.faults; calls = d.calls } };
}

impl<R: Files> FileDisk<R> {
    /// A disk over the file with this path.
    pub fn new(rt: R, path: Option<String>) -> FileDisk<R>
        ensures { result ≡ no_calls }
    {
        FileDisk {
            rt,
            path,
            file: None,
            faults: 0,
            calls: 0,
        }
    }

    /// Gives it a path, where it has none yet.
    pub(crate) fn set_path(&mut self, path: Option<String>)
        ensures { self.new ≡ self.old }
    {
        if self.path.is_none() {
            self.path = path;
        }
    }

    /// Counts a call, and a failure.
    fn counted<T>(&mut self, answer: Result<T, Failed>) -> Result<T, Failed>
        ensures same { result ≡ answer }
        ensures cause { HasCause self.old.faults self.new.faults result }
        ensures counted { RoseBy 1 self.old.calls self.new.calls }
    {
        let faults = self.faults;
        self.calls = self.calls.saturating_add(1);
        if answer.is_err() {
            self.faults = faults.saturating_add(1);
        }
        answer
    }
}

/// Opens the file, where it isn't open yet.
fn open<R: Files>(rt: &R, path: &Option<String>, file: &mut Option<R::File>) -> Result<(), Failed> {
    if file.is_some() {
        return Ok(());
    }
    let Some(path) = path else {
        return Err(Failed);
    };
    let mut options = OpenOptions::new();
    options.read(true).write(true).create(true);
    *file = Some(options.open(rt, path.as_str()).map_err(|_| Failed)?);
    Ok(())
}

fn len_of<F: OpenFile>(file: &Option<F>) -> Result<u64, Failed> {
    match file {
        Some(file) => Ok(file.metadata().map_err(|_| Failed)?.len()),
        None => Err(Failed),
    }
}

fn read_from<F: Read + Seek>(file: &mut Option<F>, at: u64, buf: &mut [u8]) -> Result<(), Failed> {
    match file {
        Some(file) => {
            file.seek(SeekFrom::Start(at)).map_err(|_| Failed)?;
            file.read_exact(buf).map_err(|_| Failed)
        }
        None => Err(Failed),
    }
}

fn write_to<F: Write + Seek>(file: &mut Option<F>, at: u64, part: &[u8]) -> Result<(), Failed> {
    match file {
        Some(file) => {
            file.seek(SeekFrom::Start(at)).map_err(|_| Failed)?;
            file.write_all(part).map_err(|_| Failed)
        }
        None => Err(Failed),
    }
}

fn cut_to<F: OpenFile>(file: &Option<F>, to: u64) -> Result<(), Failed> {
    match file {
        Some(file) => file.set_len(to).map_err(|_| Failed),
        None => Err(Failed),
    }
}

fn sync_of<F: OpenFile>(file: &Option<F>) -> Result<(), Failed> {
    match file {
        Some(file) => file.sync_data().map_err(|_| Failed),
        None => Err(Failed),
    }
}

/// The same, as a call that may also run out of memory answers it.
fn as_stop(answer: Result<(), Failed>) -> Result<(), Stop>
    ensures same { IsErr result ↔ IsErr answer }
    ensures failed { IfErr result (λ stop. stop ≡ Stop.Failed) }
{
    match answer {
        Ok(()) => Ok(()),
        Err(Failed) => Err(Stop::Failed),
    }
}

impl<R: Files> Disk for FileDisk<R> {
    ghost use Rattle.std.specs.Prelude.{⊤, None};
    ghost use Rattle.outer_disk.specs.FileDisk.{file_counts};

    ghost told = { λ _. None };

    ghost may_leave = { λ _ _. ⊤ };

    ghost moment = { λ _. 0 };

    ghost left_since = { λ _ _ _. ⊤ };

    ghost counts = { file_counts };

    ghost counts_now = { λ _ _ _ _ _. tt };

    ghost only_now = { λ _ _ _. tt };

    fn len(&mut self) -> Result<u64, Failed> {
        let answer = match open(&self.rt, &self.path, &mut self.file) {
            Ok(()) => len_of(&self.file),
            Err(Failed) => Err(Failed),
        };
        self.counted(answer)
    }

    fn read(&mut self, at: u64, buf: &mut [u8]) -> Result<(), Failed> {
        let answer = match open(&self.rt, &self.path, &mut self.file) {
            Ok(()) => read_from(&mut self.file, at, buf),
            Err(Failed) => Err(Failed),
        };
        self.counted(answer)
    }

    fn write_at(&mut self, at: u64, part: &[u8]) -> Result<(), Stop> {
        let answer = match open(&self.rt, &self.path, &mut self.file) {
            Ok(()) => write_to(&mut self.file, at, part),
            Err(Failed) => Err(Failed),
        };
        as_stop(self.counted(answer))
    }

    fn cut(&mut self, to: u64) -> Result<(), Stop> {
        let answer = match open(&self.rt, &self.path, &mut self.file) {
            Ok(()) => cut_to(&self.file, to),
            Err(Failed) => Err(Failed),
        };
        as_stop(self.counted(answer))
    }

    fn sync(&mut self) -> Result<(), Stop> {
        let answer = match open(&self.rt, &self.path, &mut self.file) {
            Ok(()) => sync_of(&self.file),
            Err(Failed) => Err(Failed),
        };
        as_stop(self.counted(answer))
    }
}
