//! A journal's disk that stops at a write, and then crashes.
use crate::journals::{Answer, disk_with, entry, read, save, save_three, update};
use outer_disk::MemDisk;
use plain_orders::Entry;
use std::alloc::Global;
use std::test::*;

/// What a start answers after a crash.
fn read_after_crash(alloc: Global, disk: &mut MemDisk, pick: u64) -> Result<Answer, Fail> {
    disk.crash(pick)?;
    Ok(read(alloc, disk))
}

#[test]
fn a_batch_is_absent_or_whole(rt: HostRuntime) -> Result<(), Fail> {
    let alloc = rt.alloc();
    let part = vec![in alloc; entry(alloc, 0)?]?;
    // A start of an empty disk makes the calls 0 to 4.
    let rows = [(5, 0), (6, 0), (7, 1), (8, 1)];
    for (call, most) in rows {
        for pick in 0..=20 {
            let mut disk = disk_with(alloc, b"", &[call], None)?;
            assert_eq!(rt;
                save(alloc, &mut disk, &part)?,
                (Answer::Disk, Answer::NeedsStart)
            );
            let answer = read_after_crash(alloc, &mut disk, pick)?;
            assert!(rt;
                answer == Answer::Read(0) || answer == Answer::Read(most),
                "{call} {pick}"
            );
        }
    }
    for pick in 0..=20 {
        let mut disk = disk_with(alloc, b"", &[], None)?;
        assert_eq!(rt;
            save(alloc, &mut disk, &part)?,
            (Answer::Saved, Answer::Saved)
        );
        assert_eq!(rt;
            read_after_crash(alloc, &mut disk, pick)?,
            Answer::Read(1),
            "{pick}"
        );
    }
    Ok(())
}

#[test]
fn a_stop_at_any_write_leaves_whole_batches(rt: HostRuntime) -> Result<(), Fail> {
    let alloc = rt.alloc();
    // The first write is that of a start, and each batch has two.
    for write in 0..8 {
        for pick in 0..=20 {
            let mut disk = disk_with(alloc, b"", &[], Some(write))?;
            let saved = save_three(alloc, &mut disk)?;
            assert_eq!(rt; saved, if write == 0 { 0 } else { (write - 1) / 2 });
            let answer = read_after_crash(alloc, &mut disk, pick)?;
            assert_eq!(rt; answer, Answer::Read(saved as usize), "{write} {pick}");
        }
    }
    Ok(())
}

/// How many entries stand in front of each of the three batches below, and how many there are in all.
const BATCHES: [usize; 4] = [0, 5539, 11_076, 11_078];

/// Entries that take three batches, of which two are full.
fn three_batches(alloc: Global) -> Result<Vec<Entry>, Fail> {
    let mut part = vec![in alloc; entry(alloc, 0)?, entry(alloc, 1)?]?;
    for w in 1..=11_076 {
        part.push(update(alloc, w, 3000)?)?;
    }
    Ok(part)
}

/// Saves three batches to a disk that stops at a write, lets it crash with each pick, and tells whether each
/// time so many of the batches were read.
fn leaves_whole(alloc: Global, part: &[Entry], write: u64, batches: usize) -> Result<bool, Fail> {
    let want = BATCHES.get(batches).copied().map(Answer::Read);
    for pick in 0..=20 {
        let mut disk = disk_with(alloc, b"", &[], Some(write))?;
        let (answer, _) = save(alloc, &mut disk, part)?;
        if (answer == Answer::Saved) != (batches == 3) {
            return Ok(false);
        }
        let read = read_after_crash(alloc, &mut disk, pick)?;
        if want != Some(read) {
            return Ok(false);
        }
    }
    Ok(true)
}

// The first write is that of the start, and each batch has two.
#[test]
fn a_stop_in_the_first_of_three_batches_leaves_none(rt: HostRuntime) -> Result<(), Fail> {
    let alloc = rt.alloc();
    let part = three_batches(alloc)?;
    for write in 0..3 {
        assert!(rt; leaves_whole(alloc, &part, write, 0)?, "{write}");
    }
    Ok(())
}

#[test]
fn a_stop_in_the_second_of_three_batches_leaves_one(rt: HostRuntime) -> Result<(), Fail> {
    let alloc = rt.alloc();
    let part = three_batches(alloc)?;
    for write in 3..5 {
        assert!(rt; leaves_whole(alloc, &part, write, 1)?, "{write}");
    }
    Ok(())
}

#[test]
fn a_stop_in_the_last_of_three_batches_leaves_two(rt: HostRuntime) -> Result<(), Fail> {
    let alloc = rt.alloc();
    let part = three_batches(alloc)?;
    for write in 5..7 {
        assert!(rt; leaves_whole(alloc, &part, write, 2)?, "{write}");
    }
    Ok(())
}

#[test]
fn three_saved_batches_stay(rt: HostRuntime) -> Result<(), Fail> {
    let alloc = rt.alloc();
    let part = three_batches(alloc)?;
    assert!(rt; leaves_whole(alloc, &part, 7, 3)?);
    Ok(())
}
