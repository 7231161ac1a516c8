ghost use Rattle.std.specs.Prelude.{◌≡◌, ◌≤◌, length, replicate, vec_len, Some, IfOk, OnOk};
ghost use Rattle.outer_disk.specs.FileDisk.{no_calls};

use crate::disk_set::{DiskSet, PLACES};
use crate::file_disk::FileDisk;
use outer_io::Word;
use std::alloc::{AllocError, Global};
use std::marker::Model;
use std::mem;
use std::rt::Files;

/// Disks over files: that of the data server NAME is `NAME.journal` in a directory. A crash leaves the file as
/// it is.
#[derive(Drop)]
pub struct FileDisks<R: Files> {
    alloc: Global,
    dir: Word,
    // The paths that no disk has been given yet.
    paths: Vec<Option<String>>,
    places: Vec<Option<FileDisk<R>>>,
}

impl<R: Files> Model for FileDisks<R> {
    ghost use Rattle.std.specs.Prelude.{◌≡◌, List, Option, vec_len};
    ghost use Rattle.outer_disk.specs.FileDisk.{FileCounts};

    ghost Value = { List (Option FileCounts) };

    ghost view = { λ d. d.places.items };

    ghost invariant = { λ d. vec_len d.places ≡ 16 };
}

impl<R: Files + Copy> FileDisks<R> {
    /// A set of disks over the files in this directory.
    pub fn new(rt: R, alloc: Global, dir: Word) -> Result<FileDisks<R>, AllocError>
        ensures { IfOk result (λ disks. disks ≡ replicate 16 (Some no_calls)) }
    {
        let places = places_over(rt, alloc)?;
        Ok(FileDisks {
            alloc,
            dir,
            paths: Vec::new(alloc),
            places,
        })
    }
}

/// Disks with no path yet.
fn places_over<R: Files + Copy>(
    rt: R,
    alloc: Global,
) -> Result<Vec<Option<FileDisk<R>>>, AllocError>
    ensures { IfOk result (λ places. places.items ≡ replicate 16 (Some no_calls)) }
{
    let mut places = Vec::with_capacity(alloc, PLACES)?;
    for _place in 0..PLACES {
        places.push(Some(FileDisk::new(rt, None)))?;
    }
    Ok(places)
}

/// The path of the file of a data server.
fn path_of(alloc: Global, dir: &Word, name: &Word) -> Result<String, AllocError> {
    let mut path = String::from_str(alloc, dir.as_str())?;
    path.push_str("/")?;
    path.push_str(name.as_str())?;
    path.push_str(".journal")?;
    Ok(path)
}

impl<R: Files + Copy> DiskSet for FileDisks<R> {
    ghost use Rattle.outer_disk.specs.DiskSet.{place_of};

    type D = FileDisk<R>;

    ghost places = { place_of };

    fn names(&mut self, names: &[Word]) -> Result<(), AllocError> {
        let mut paths = Vec::with_capacity(self.alloc, names.len())?;
        for name in names {
            paths.push(Some(path_of(self.alloc, &self.dir, name)?))?;
        }
        self.paths = paths;
        Ok(())
    }

    fn take(&mut self, server: u8) -> FileDisk<R> {
        let place = usize::from(server);
        let mut path = None;
        if place < self.paths.len() {
            path = mem::replace(&mut self.paths[place], None);
        }
        match mem::replace(&mut self.places[place], None) {
            Some(mut disk) => {
                disk.set_path(path);
                disk
            }
            None => unreachable!(),
        }
    }

    fn give(&mut self, server: u8, disk: FileDisk<R>) {
        self.places[usize::from(server)] = Some(disk);
    }

    fn crash(&mut self, _server: u8, _pick: u64) -> Result<(), AllocError> {
        Ok(())
    }
}

#[cfg(test)]
mod tests {
    use super::*;
    use crate::disk::Disk;
    use outer_io::{Failed, Stop};
    use std::fs;
    use std::test::Fail;

    #[test]
    fn a_file_keeps_what_is_written_over_a_crash(rt: HostRuntime) -> Result<(), Fail> {
        let alloc = rt.alloc();
        let dir = Word::from_string(String::from_str(alloc, ".")?);
        let name = Word::from_string(String::from_str(alloc, "outer_disk_test")?);
        let mut disks = FileDisks::new(rt, alloc, dir)?;
        disks.names(&vec![in alloc; name]?)?;
        let mut disk = disks.take(0);
        assert_eq!(rt; disk.write_at(0, b"abcd"), Ok(()));
        assert_eq!(rt; disk.write_at(1, b"xyzuv"), Ok(()));
        assert_eq!(rt; disk.cut(5), Ok(()));
        assert_eq!(rt; disk.sync(), Ok(()));
        disks.give(0, disk);
        disks.crash(0, 0)?;
        let mut again = disks.take(0);
        assert_eq!(rt; again.len(), Ok(5));
        let mut buf = [0u8; 3];
        assert_eq!(rt; again.read(2, &mut buf), Ok(()));
        assert_eq!(rt; buf, *b"yzu");
        assert_eq!(rt; again.read(4, &mut buf), Err(Failed));
        fs::remove_file(&rt, "./outer_disk_test.journal")?;
        let mut nameless = disks.take(1);
        assert_eq!(rt; nameless.len(), Err(Failed));
        assert_eq!(rt; nameless.sync(), Err(Stop::Failed));
        Ok(())
    }
}
