ghost use Rattle.std.specs.Prelude.{◌≡◌, ◌<◌, ◌≤◌, ◌++◌, ◌∷◌, [], length, take, drop, All, OnOk, IfOk};
ghost use Rattle.std.specs.List.{AllByRecursion};
ghost use Rattle.journal_records.specs.Records.{HasRecordOp, IsRecord};
ghost use Rattle.journal_disk.specs.Batches.{records, body_length, batch_bytes};
ghost use Rattle.journal_disk.specs.Parts.{IsFull};
ghost use Rattle.journal_disk.specs.Staged.{piece, IsStaged};

use crate::gates::CLOSED;
use crate::record_size::record_size;
use field_bytes::{put_u8, put_u32};
use journal_records::write_entry;
use plain_orders::Entry;
use std::alloc::{AllocError, Global};

/// The version of the records in a batch.
pub(crate) const VERSION: u8 = 1;

/// The most bytes that a batch may have behind its length.
pub(crate) const BODY_LIMIT: usize = 16_777_216;

/// How many bytes a batch has beside its body: its length, and the closed gate behind it.
const FRAME: usize = 5;

/// Fewer bytes of records than a batch has that another follows.
const LEAST_FULL: usize = 16_000_000;

/// Batches that are to be written, each with its length in front and a closed gate behind.
#[derive(Drop)]
pub(crate) struct StagedBatches {
    /// The bytes of all of them, in order.
    pub bytes: Vec<u8>,
    /// How many bytes each takes.
    pub sizes: Vec<usize>,
}

/// The entries from the front of a part that go into one batch.
#[derive(Clone, Copy)]
struct FrontBatch {
    /// How many entries.
    count: usize,
    /// How many bytes the batch has behind its length.
    body: usize,
}

/// As many entries from the front as one batch may have.
#[tactic(auto, using(crate::proofs::Filling::filling))]
fn front_batch(part: &[Entry]) -> FrontBatch
    requires some { 0 < length part.now }
    requires ops { All HasRecordOp part.now }
    ensures count { 0 < result.count }
    ensures within { result.count ≤ length part.now }
    ensures body { result.body ≡ body_length (take result.count part.now) }
    ensures short { result.body ≤ 16777216 }
    ensures full { IsFull (take result.count part.now) (drop result.count part.now) }
{
    let mut front = FrontBatch { count: 0, body: 1 };
    for entry in part {
        let body = front.body + record_size(entry);
        if body > BODY_LIMIT {
            return front;
        }
        front = FrontBatch {
            count: front.count + 1,
            body,
        };
    }
    front
}

/// Appends the records of entries.
#[tactic(auto, using(crate::proofs::Filling::recorded))]
fn put_records(to: &mut Vec<u8>, entries: &[Entry]) -> Result<(), AllocError>
    requires { All HasRecordOp entries.now }
    ensures ok { OnOk result (to.new.items ≡ to.old.items ++ records entries.now) }
    ensures have_records { OnOk result (AllByRecursion IsRecord entries.now) }
{
    for entry in entries {
        write_entry(entry, to)?;
    }
    Ok(())
}

/// Appends a batch and the closed gate behind it.
fn put_batch(to: &mut Vec<u8>, entries: &[Entry], body: usize) -> Result<(), AllocError>
    requires ops { All HasRecordOp entries.now }
    requires body { body ≡ body_length entries.now }
    requires short { body ≤ 16777216 }
    ensures ok { OnOk result (to.new.items ≡ to.old.items ++ piece entries.now) }
    ensures have_records { OnOk result (AllByRecursion IsRecord entries.now) }
{
    put_u32(to, body as u32)?;
    put_u8(to, VERSION)?;
    put_records(to, entries)?;
    put_u8(to, CLOSED)
}

/// How much room the bytes of a part take.
fn room_for(part: &[Entry]) -> usize
    requires { All HasRecordOp part.now }
{
    let mut records = 0usize;
    for entry in part {
        records = records.saturating_add(record_size(entry));
    }
    let batches = records / LEAST_FULL + 1;
    records.saturating_add(batches * (FRAME + 1))
}

/// The batches of a part.
pub(crate) fn stage(alloc: Global, part: &[Entry]) -> Result<StagedBatches, AllocError>
    requires { All HasRecordOp part.now }
    ensures { IfOk result (λ staged. IsStaged part.now staged.bytes.items staged.sizes.items) }
{
    let mut bytes = Vec::with_capacity(alloc, room_for(part))?;
    let mut sizes = Vec::new(alloc);
    let mut rest = part;
    while !rest.is_empty() {
        let front = front_batch(rest);
        let (entries, after) = rest.split_at(front.count);
        put_batch(&mut bytes, entries, front.body)?;
        sizes.push(front.body + FRAME)?;
        rest = after;
    }
    Ok(StagedBatches { bytes, sizes })
}
