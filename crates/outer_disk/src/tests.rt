//! Disks in memory: what a crash leaves, and which calls fail.
use crate::disk::Disk;
use crate::mem_disk::MemDisk;
use outer_io::{Failed, Stop};
use std::alloc::Global;
use std::test::Fail;

fn disk_with(alloc: Global, text: &str, fail: &[u64], stop: Option<u64>) -> Result<MemDisk, Fail> {
    let bytes = text.as_bytes().to_vec(alloc)?;
    Ok(MemDisk::new(alloc, bytes, fail.to_vec(alloc)?, stop))
}

// Writes where a part may begin there.
fn write(disk: &mut MemDisk, at: u64, part: &str) -> Result<(), Stop> {
    if at as usize > disk.bytes().len() {
        return Err(Stop::Memory);
    }
    disk.write_at(at, part.as_bytes())
}

// Cuts where there are so many bytes.
fn cut(disk: &mut MemDisk, to: u64) -> Result<(), Stop> {
    if to as usize > disk.bytes().len() {
        return Err(Stop::Memory);
    }
    disk.cut(to)
}

fn sync(disk: &mut MemDisk) -> Result<(), Stop> {
    disk.sync()
}

fn len(disk: &mut MemDisk) -> Result<u64, Failed> {
    disk.len()
}

// Two bytes from a place on, where it has them.
fn read(disk: &mut MemDisk, at: u64) -> Result<[u8; 2], Failed> {
    let mut buf = [0u8; 2];
    if at > 9 || disk.bytes().len() < at as usize + 2 {
        return Err(Failed);
    }
    disk.read(at, &mut buf)?;
    Ok(buf)
}

fn crash(disk: &mut MemDisk, pick: u64) -> Result<(), Fail> {
    disk.crash(pick)?;
    Ok(())
}

#[test]
fn a_crash_leaves_the_image_that_is_picked(rt: HostRuntime) -> Result<(), Fail> {
    let alloc = rt.alloc();
    let images: [(u64, &[u8]); 6] = [
        (0, b"aXYdef"),
        (1, b"zXYdPQRS"),
        (2, &[99, 88, 89, 100, 31, 75, 0, 83]),
        (3, &[122, 88, 89, 100, 101, 180, 0, 202]),
        (5, &[64, 88, 89, 100, 80, 135, 0, 0]),
        (u64::MAX, &[135, 88, 89, 100, 85, 14, 0, 35]),
    ];
    for (pick, image) in images {
        let mut disk = disk_with(alloc, "abcdef", &[], None)?;
        assert_eq!(rt; write(&mut disk, 1, "XY"), Ok(()));
        assert_eq!(rt; sync(&mut disk), Ok(()));
        assert_eq!(rt; write(&mut disk, 4, "PQRS"), Ok(()));
        assert_eq!(rt; write(&mut disk, 0, "z"), Ok(()));
        crash(&mut disk, pick)?;
        assert_eq!(rt; disk.bytes(), image, "at {pick}");
        crash(&mut disk, 0)?;
        assert_eq!(rt; disk.bytes(), image, "at {pick}, again");
    }
    Ok(())
}

#[test]
fn a_crash_after_a_cut(rt: HostRuntime) -> Result<(), Fail> {
    let alloc = rt.alloc();
    let images: [(u64, &[u8]); 4] = [
        (0, b"abcdef"),
        (1, b"abxyz"),
        (3, &[97, 98, 120, 100, 180]),
        (5, &[97, 98, 64, 121, 135]),
    ];
    for (pick, image) in images {
        let mut disk = disk_with(alloc, "abcdef", &[], None)?;
        assert_eq!(rt; cut(&mut disk, 2), Ok(()));
        assert_eq!(rt; write(&mut disk, 2, "xyz"), Ok(()));
        crash(&mut disk, pick)?;
        assert_eq!(rt; disk.bytes(), image, "at {pick}");
    }
    Ok(())
}

#[test]
fn listed_calls_and_those_after_a_stop_do_nothing(rt: HostRuntime) -> Result<(), Fail> {
    let alloc = rt.alloc();
    let mut disk = disk_with(alloc, "abc", &[0, 2, 4, 6, 8], Some(2))?;
    assert_eq!(rt; len(&mut disk), Err(Failed));
    assert_eq!(rt; len(&mut disk), Ok(3));
    assert_eq!(rt; read(&mut disk, 1), Err(Failed));
    assert_eq!(rt; read(&mut disk, 1), Ok(*b"bc"));
    assert_eq!(rt; write(&mut disk, 3, "d"), Err(Stop::Failed));
    assert_eq!(rt; write(&mut disk, 3, "e"), Ok(()));
    assert_eq!(rt; cut(&mut disk, 1), Err(Stop::Failed));
    assert_eq!(rt; cut(&mut disk, 3), Ok(()));
    assert_eq!(rt; sync(&mut disk), Err(Stop::Failed));
    assert_eq!(rt; sync(&mut disk), Ok(()));
    // The third write is the one from which it stands still.
    assert_eq!(rt; write(&mut disk, 0, "x"), Err(Stop::Failed));
    assert_eq!(rt; len(&mut disk), Err(Failed));
    assert_eq!(rt; sync(&mut disk), Err(Stop::Failed));
    assert_eq!(rt; disk.bytes(), b"abc".as_slice());
    crash(&mut disk, 1)?;
    assert_eq!(rt; write(&mut disk, 0, "x"), Ok(()));
    assert_eq!(rt; disk.bytes(), b"xbc".as_slice());
    Ok(())
}
