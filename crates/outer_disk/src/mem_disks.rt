ghost use Rattle.std.specs.Prelude.{◌≡◌, ◌-◌, ◌≤◌, ◌++◌, length, map, replicate, vec_len, Some, IfOk, OnOk};
ghost use Rattle.outer_disk.specs.DiskSet.{empty_disk, filled};

use crate::disk_set::{DiskSet, PLACES};
use crate::mem_disk::MemDisk;
use outer_io::Word;
use std::alloc::{AllocError, Global};
use std::marker::Model;
use std::mem;

/// Disks over memory.
#[derive(Drop)]
pub struct MemDisks {
    places: Vec<Option<MemDisk>>,
}

impl Model for MemDisks {
    ghost use Rattle.std.specs.Prelude.{◌≡◌, List, Option, vec_len};
    ghost use Rattle.outer_disk.specs.MemDisk.{DiskState};

    ghost Value = { List (Option DiskState) };

    ghost view = { λ d. d.places.items };

    ghost invariant = { λ d. vec_len d.places ≡ 16 };
}

impl MemDisks {
    /// A set of these disks, the first of them in the first place, and of empty ones in the other places.
    pub fn new(alloc: Global, list: Vec<MemDisk>) -> Result<MemDisks, AllocError>
        requires { length list.items ≤ 16 }
        ensures { IfOk result (λ disks. disks ≡ filled list.items) }
    {
        let mut places = in_places(alloc, list)?;
        fill_up(alloc, &mut places)?;
        Ok(MemDisks { places })
    }
}

/// Each of the disks in a place.
fn in_places(alloc: Global, list: Vec<MemDisk>) -> Result<Vec<Option<MemDisk>>, AllocError>
    ensures { IfOk result (λ places. places.items ≡ map (λ d. Some d) list.items) }
{
    list.into_iter().map(Some).collect(alloc)
}

/// A disk with no bytes, none of whose calls is to fail.
fn empty(alloc: Global) -> MemDisk
    ensures { result ≡ empty_disk }
{
    MemDisk::new(alloc, Vec::new(alloc), Vec::new(alloc), None)
}

/// Puts empty disks after those that stand there, until there are 16.
fn fill_up(alloc: Global, places: &mut Vec<Option<MemDisk>>) -> Result<(), AllocError>
    requires { vec_len places.old ≤ 16 }
    ensures { OnOk result (places.new.items
        ≡ places.old.items ++ replicate (16 - vec_len places.old) (Some empty_disk)) }
{
    for _place in places.len()..PLACES {
        places.push(Some(empty(alloc)))?;
    }
    Ok(())
}

impl DiskSet for MemDisks {
    ghost use Rattle.std.specs.Prelude.{◌<◌, IsSome, OnErr};
    ghost use Rattle.outer_disk.specs.Disk.{Matched};
    ghost use Rattle.outer_disk.specs.DiskSet.{place_of, AllStay, OthersStay, Crashes, IsCrashed};
    ghost use Rattle.outer_disk.specs.MemDisk.{held, counts_of, MayLeaveOf};

    type D = MemDisk;

    ghost places = { place_of };

    fn names(&mut self, _names: &[Word]) -> Result<(), AllocError> {
        Ok(())
    }

    fn take(&mut self, server: u8) -> MemDisk {
        let taken = mem::replace(&mut self.places[usize::from(server)], None);
        match taken {
            Some(disk) => disk,
            None => unreachable!(),
        }
    }

    fn give(&mut self, server: u8, disk: MemDisk) {
        self.places[usize::from(server)] = Some(disk);
    }

    fn crash(&mut self, server: u8, pick: u64) -> Result<(), AllocError>
        requires within { server < 16 }
        requires there { IsSome (place_of self.old server) }
        ensures image { OnOk result (Matched (IsCrashed pick)
            (place_of self.old server) (place_of self.new server)) }
        ensures ok { OnOk result (Matched (Crashes (λ d. Some (held d)) MayLeaveOf counts_of)
            (place_of self.old server) (place_of self.new server)) }
        ensures others { OthersStay server (place_of self.old) (place_of self.new) }
        ensures err { OnErr result (AllStay (place_of self.old) (place_of self.new)) }
    {
        match &mut self.places[usize::from(server)] {
            Some(disk) => disk.crash(pick),
            None => unreachable!(),
        }
    }
}

#[cfg(test)]
mod tests {
    use super::*;
    use crate::disk::Disk;
    use std::test::Fail;

    #[test]
    fn a_disk_is_taken_put_back_and_crashes_in_its_place(rt: HostRuntime) -> Result<(), Fail> {
        let alloc = rt.alloc();
        let bytes = b"ab".to_vec(alloc)?;
        let first = MemDisk::new(alloc, bytes, Vec::new(alloc), None);
        let mut disks = MemDisks::new(alloc, vec![in alloc; first]?)?;
        disks.names(&[])?;
        let mut disk = disks.take(0);
        assert_eq!(rt; disk.bytes(), b"ab".as_slice());
        let last = disks.take(15);
        assert_eq!(rt; last.bytes(), b"".as_slice());
        disks.give(15, last);
        assert_eq!(rt; disk.write_at(0, b"x"), Ok(()));
        disks.give(0, disk);
        disks.crash(0, 1)?;
        let mut disk = disks.take(0);
        assert_eq!(rt; disk.bytes(), b"xb".as_slice());
        assert_eq!(rt; disk.write_at(0, b"y"), Ok(()));
        disks.give(0, disk);
        disks.crash(0, 0)?;
        assert_eq!(rt; disks.take(0).bytes(), b"xb".as_slice());
        Ok(())
    }
}
