ghost use Rattle.std.specs.Prelude.{◌≡◌, ◌++◌, true, List, Some, IfOk};
ghost use Rattle.plain_orders.specs.declared.entry.Entry.{Entry};
ghost use Rattle.plain_orders.specs.Ordered.{IsOrdered};
ghost use Rattle.outer_disk.specs.MemDisk.{held, MayLeaveOf};
ghost use Rattle.journal_disk.specs.Settled.{MayAppend};

use field_bytes::take_key;
use journal_disk::{Journal, JournalError};
use outer_disk::MemDisk;
use plain_orders::{Entry, Op};
use plain_programs::OrderCheck;
use std::alloc::{AllocError, Global};
use std::test::*;
use subscript_keys::ValueBytes;

/// What a start or an append answers.
#[derive(Clone, Copy, Debug, PartialEq, Eq)]
pub(crate) enum Answer {
    /// A start read so many entries.
    Read(usize),
    Saved,
    Disk,
    NotAJournal(u64),
    NeedsStart,
    Memory,
}

fn answer_of(error: JournalError) -> Answer {
    match error {
        JournalError::Disk => Answer::Disk,
        JournalError::NotAJournal { place } => Answer::NotAJournal(place),
        JournalError::NeedsStart => Answer::NeedsStart,
        JournalError::Memory(_) => Answer::Memory,
    }
}

/// What a start answers.
pub(crate) fn read(alloc: Global, disk: &mut MemDisk) -> Answer {
    match Journal::start(alloc, disk) {
        Ok((_journal, entries)) => Answer::Read(entries.as_slice().len()),
        Err(error) => answer_of(error),
    }
}

/// Whether an ordered list goes on by these entries, which it then has.
fn goes_on(alloc: Global, order: &mut OrderCheck, entries: &[Entry]) -> Result<bool, AllocError>
    requires { IsOrdered order.old }
    ensures added { IfOk result (λ on. on ≡ true → order.new ≡ order.old ++ entries.now) }
    ensures ordered { IfOk result (λ on. on ≡ true → IsOrdered (order.old ++ entries.now)) }
{
    for entry in entries {
        if !order.next(alloc, entry)? {
            return Ok(false);
        }
    }
    Ok(true)
}

/// Appends a part, and once more where that failed at the disk.
fn append(
    alloc: Global,
    journal: &mut Journal,
    disk: &mut MemDisk,
    part: &[Entry],
) -> (Answer, Answer)
    requires { (list : List Entry) × MayAppend (Some (held disk.old)) (MayLeaveOf disk.old)
        journal.old.gate list part.now }
{
    let first = match journal.append(alloc, disk, part) {
        Ok(()) => return (Answer::Saved, Answer::Saved),
        Err(error) => answer_of(error),
    };
    if !journal.needs_start() {
        return (first, first);
    }
    match journal.append(alloc, disk, part) {
        Ok(()) => (first, Answer::Saved),
        Err(error) => (first, answer_of(error)),
    }
}

/// Starts a journal and appends a part: what that answers, and what an append after it does.
pub(crate) fn save(
    alloc: Global,
    disk: &mut MemDisk,
    part: &[Entry],
) -> Result<(Answer, Answer), Fail> {
    let (mut journal, entries) = match Journal::start(alloc, disk) {
        Ok(started) => started,
        Err(error) => {
            let answer = answer_of(error);
            return Ok((answer, answer));
        }
    };
    let mut order = OrderCheck::new(alloc);
    if !goes_on(alloc, &mut order, entries.as_slice())? {
        return Err(Fail::from("the entries that were read"));
    }
    if !goes_on(alloc, &mut order, part)? {
        return Err(Fail::from("the entries of the part"));
    }
    Ok(append(alloc, &mut journal, disk, part))
}

/// An update of ^x in session 2, with a value of so many bytes.
pub(crate) fn update(alloc: Global, w: u64, length: usize) -> Result<Entry, Fail> {
    let (key, _) = take_key(alloc, b"\x00\x02x\x00")?;
    let value = ValueBytes::from_vec(vec![in alloc; b'5'; length]?);
    Ok(Entry::Update {
        session: 2,
        w,
        job: 0,
        txn: 0,
        op: Op::Set { key, value },
    })
}

/// The entry with this number, from 0, of an Epoch, an Open and updates.
pub(crate) fn entry(alloc: Global, number: u64) -> Result<Entry, Fail> {
    match number {
        0 => Ok(Entry::Epoch { number: 1 }),
        1 => Ok(Entry::Opened { session: 2, app: 0 }),
        _ => update(alloc, number - 1, 1),
    }
}

pub(crate) fn disk_with(
    alloc: Global,
    bytes: &[u8],
    fail: &[u64],
    stop: Option<u64>,
) -> Result<MemDisk, Fail> {
    Ok(MemDisk::new(alloc, bytes.to_vec(alloc)?, fail.to_vec(alloc)?, stop))
}

/// Saves three entries, each in a batch of its own, up to the first failure; answers how often it saved.
pub(crate) fn save_three(alloc: Global, disk: &mut MemDisk) -> Result<u64, Fail> {
    for number in 0..3 {
        let part = vec![in alloc; entry(alloc, number)?]?;
        if save(alloc, disk, &part)?.0 != Answer::Saved {
            return Ok(number);
        }
    }
    Ok(3)
}

#[test]
fn a_fresh_journal_has_one_epoch(rt: HostRuntime) -> Result<(), Fail> {
    let alloc = rt.alloc();
    let mut disk = disk_with(alloc, b"", &[], None)?;
    let part = vec![in alloc; entry(alloc, 0)?]?;
    assert_eq!(rt;
        save(alloc, &mut disk, &part)?,
        (Answer::Saved, Answer::Saved)
    );
    assert_eq!(rt;
        disk.bytes(),
        b"\x01\x00\x00\x00\x06\x01\x01\x00\x00\x00\x01\x00".as_slice()
    );
    Ok(())
}

#[test]
fn a_bad_gate_and_a_failed_disk_are_told(rt: HostRuntime) -> Result<(), Fail> {
    let alloc = rt.alloc();
    let mut disk = disk_with(alloc, b"\x01\x00\x00\x00\x06\x01", &[], None)?;
    assert_eq!(rt; read(alloc, &mut disk), Answer::NotAJournal(0));
    let mut disk = disk_with(alloc, b"", &[0], None)?;
    assert_eq!(rt; read(alloc, &mut disk), Answer::Disk);
    Ok(())
}

#[test]
fn a_cut_or_changed_journal_is_refused(rt: HostRuntime) -> Result<(), Fail> {
    let alloc = rt.alloc();
    let mut disk = disk_with(alloc, b"", &[], None)?;
    assert_eq!(rt; save_three(alloc, &mut disk)?, 3);
    let bytes = disk.bytes().to_vec(alloc)?;
    assert_eq!(rt; bytes.len(), 65);
    for length in 0..=bytes.len() {
        let want = match length {
            0 | 1 => Answer::Read(0),
            2..=11 => Answer::NotAJournal(0),
            12..=27 => Answer::NotAJournal(11),
            28..=64 => Answer::NotAJournal(27),
            _ => Answer::Read(3),
        };
        let mut disk = disk_with(alloc, &bytes[..length], &[], None)?;
        assert_eq!(rt; read(alloc, &mut disk), want, "{length}");
    }
    let changes = [(27, 0, Answer::Read(2)), (5, 9, Answer::NotAJournal(0))];
    for (place, byte, want) in changes {
        let mut changed = bytes.clone()?;
        if place < changed.len() {
            changed[place] = byte;
        }
        let mut disk = disk_with(alloc, &changed, &[], None)?;
        assert_eq!(rt; read(alloc, &mut disk), want, "{place}");
    }
    Ok(())
}

/// An Epoch, an Open and updates, whose records take 16,777,125 bytes, and a last update with a value of so many.
fn full_part(alloc: Global, last: usize) -> Result<Vec<Entry>, Fail> {
    let mut part = vec![in alloc; entry(alloc, 0)?, entry(alloc, 1)?]?;
    for w in 1..5538 {
        part.push(update(alloc, w, 3000)?)?;
    }
    part.push(update(alloc, 5538, last)?)?;
    Ok(part)
}

#[test]
fn one_byte_more_begins_another_batch(rt: HostRuntime) -> Result<(), Fail> {
    let alloc = rt.alloc();
    let rows: [(usize, &[u8], usize); 2] = [
        (60, b"\x01\x01\x00\x00\x00\x01", 16_777_222),
        (61, b"\x01\x00\xFF\xFF\xA6\x01", 16_777_229),
    ];
    for (last, head, length) in rows {
        let part = full_part(alloc, last)?;
        let mut disk = disk_with(alloc, b"", &[], None)?;
        assert_eq!(rt;
            save(alloc, &mut disk, &part)?,
            (Answer::Saved, Answer::Saved)
        );
        assert_eq!(rt; disk.bytes().len(), length);
        assert!(rt; disk.bytes().starts_with(head));
        assert_eq!(rt; read(alloc, &mut disk), Answer::Read(5540));
    }
    Ok(())
}
