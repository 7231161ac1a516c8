//! A program to be timed: it appends small entries to a fresh journal in batches, and on request reads them
//! back. `journal_bench PHASE PATH COUNT BATCH` with the phases `write` and `read`; the path `-` is a disk in
//! memory, which `read` writes first.
#![tactic(auto)]

ghost use Rattle.std.specs.Prelude.{◌≡◌, ◌+◌, ◌<◌, ◌++◌, ◌^◌, ◌-◌, List, IfOk, OnOk};
ghost use Rattle.plain_orders.specs.declared.entry.Entry.{Entry};
ghost use Rattle.plain_orders.specs.Ordered.{KeyMay};
ghost use Rattle.journal_bench.specs.Written.{IsReady, IsUpdate, IsWritten};

use anyhow::{Result, bail};
use journal_disk::Journal;
use outer_disk::{Disk, FileDisk, MemDisk};
use plain_orders::{Entry, Op};
use std::alloc::{AllocError, Global};
use std::env;
use subscript_keys::{KeyBytes, KeyError, Name, Node, Subs, ValueBytes, encode};

/// The only session: its Open is the second entry.
const SESSION: u64 = 2;

/// The key of the node `^x`.
fn the_key(alloc: Global) -> Result<KeyBytes, KeyError>
    ensures { IfOk result KeyMay }
{
    let name = Vec::from_slice(alloc, b"x").map_err(KeyError::Memory)?;
    let node = Node {
        name: Name::from_vec(name),
        subs: Subs::new(alloc),
    };
    encode(alloc, &node)
}

/// The session's update with this running number.
fn update(alloc: Global, key: &KeyBytes, w: u64) -> Result<Entry, AllocError>
    requires { KeyMay key.now }
    ensures { IfOk result (IsUpdate w) }
{
    Ok(Entry::Update {
        session: SESSION,
        w,
        job: 0,
        txn: 0,
        op: Op::Set {
            key: key.clone()?,
            value: ValueBytes::from_vec(Vec::from_slice(alloc, b"12345678")?),
        },
    })
}

/// The entries of a fresh list: its Epoch, and the session's Open.
fn opening(alloc: Global) -> Result<Vec<Entry>, AllocError>
    ensures { IfOk result (λ part. IsWritten part.items 0) }
{
    let mut part = Vec::new(alloc);
    part.push(Entry::Epoch { number: 1 })?;
    part.push(Entry::Opened {
        session: SESSION,
        app: 0,
    })?;
    Ok(part)
}

/// So many updates behind the first `from`.
fn updates(alloc: Global, key: &KeyBytes, from: u64, size: u64) -> Result<Vec<Entry>, AllocError>
    requires key { KeyMay key.now }
    requires room { from + size < 2 ^ 64 - 1 }
    ensures { IfOk result (λ part. (list : List Entry) → IsWritten list from
        → IsWritten (list ++ part.items) (from + size)) }
{
    let mut part = Vec::new(alloc);
    for place in 0..size {
        part.push(update(alloc, key, from + place + 1)?)?;
    }
    Ok(part)
}

/// Starts a fresh journal and appends the opening.
fn begin<D: Disk>(alloc: Global, disk: &mut D) -> Result<Journal>
    ensures { IfOk result (λ journal. IsReady (D.told disk.new) (D.may_leave disk.new) journal 0) }
{
    let (mut journal, entries) = Journal::start(alloc, disk)?;
    if entries.as_slice().len() > 0 {
        bail!("the journal isn't empty");
    }
    let part = opening(alloc)?;
    journal.append(alloc, disk, &part)?;
    Ok(journal)
}

/// Appends so many updates behind the first `from`.
fn extend<D: Disk>(
    alloc: Global,
    journal: &mut Journal,
    disk: &mut D,
    key: &KeyBytes,
    from: u64,
    size: u64,
) -> Result<()>
    requires ready { IsReady (D.told disk.old) (D.may_leave disk.old) journal.old from }
    requires key { KeyMay key.now }
    requires room { from + size < 2 ^ 64 - 1 }
    ensures { OnOk result (IsReady (D.told disk.new) (D.may_leave disk.new) journal.new (from + size)) }
{
    let part = updates(alloc, key, from, size)?;
    journal.append(alloc, disk, &part)?;
    Ok(())
}

/// Writes so many updates to a fresh journal.
fn write<D: Disk>(alloc: Global, disk: &mut D, count: u32, batch: u32) -> Result<()> {
    let key = the_key(alloc)?;
    let mut journal = begin(alloc, disk)?;
    let mut done = 0u32;
    for _round in 0..count {
        let size = batch.min(count - done);
        extend(
            alloc,
            &mut journal,
            disk,
            &key,
            u64::from(done),
            u64::from(size),
        )?;
        done += size;
    }
    Ok(())
}

/// How many entries a journal has.
fn read<D: Disk>(alloc: Global, disk: &mut D) -> Result<usize> {
    let (_journal, entries) = Journal::start(alloc, disk)?;
    Ok(entries.as_slice().len())
}

fn main(rt: HostRuntime) -> Result<()> {
    let alloc = rt.alloc();
    let mut words = Vec::new(alloc);
    for word in env::args(&rt)?.skip(1) {
        words.push(word)?;
    }
    let [phase, path, count, batch] = words.as_slice() else {
        bail!("usage: journal_bench PHASE PATH COUNT BATCH");
    };
    let (Ok(count), Ok(batch)) = (count.as_str().parse::<u32>(), batch.as_str().parse::<u32>())
    else {
        bail!("usage: journal_bench PHASE PATH COUNT BATCH");
    };
    let made = if path.as_str() == "-" {
        let mut disk = MemDisk::new(alloc, Vec::new(alloc), Vec::new(alloc), None);
        write(alloc, &mut disk, count, batch)?;
        if phase.as_str() == "read" {
            read(alloc, &mut disk)?
        } else {
            0
        }
    } else {
        let path = String::from_str(alloc, path.as_str())?;
        let mut disk = FileDisk::new(rt.clone()?, Some(path));
        if phase.as_str() == "read" {
            read(alloc, &mut disk)?
        } else {
            write(alloc, &mut disk, count, batch)?;
            0
        }
    };
    println!(rt; "{} {count} {batch} {made}", phase.as_str())?;
    Ok(())
}
