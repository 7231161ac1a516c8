ghost use Rattle.std.specs.Prelude.{◌≡◌, ◌≢◌, ◌+◌, ◌^◌, ◌<◌, ℕ, Err, length, IfOk};
ghost use Rattle.plain_orders.specs.Ordered.{IsOrdered};
ghost use Rattle.journal_disk.specs.Stands.{AreLow, HasBadGate};
ghost use Rattle.journal_disk.specs.Reading.{HasGate, IsRead};

use crate::batch_reader::take_batch;
use crate::gates::CLOSED;
use crate::journal_error::JournalError;
use crate::read_entries::ReadEntries;
use journal_records::RecordError;
use plain_orders::Entries;
use std::alloc::Global;

/// What was read of a journal.
#[derive(Drop)]
pub(crate) struct ReadJournal {
    pub entries: Entries,
    /// Where its closed gate stands, or has to be put.
    pub gate: u64,
}

/// Reads batches up to the closed gate.
fn read_batches(alloc: Global, bytes: &[u8]) -> Result<ReadJournal, JournalError>
    requires { 1 < length bytes.now }
    ensures ok { IfOk result (λ read. HasGate bytes.now read.entries read.gate) }
    ensures gate { IfOk result (λ read. read.gate + 1 < 2 ^ 64) }
    ensures ordered { IfOk result (λ read. IsOrdered read.entries) }
    ensures low { IfOk result (λ read. AreLow read.entries) }
    ensures not_a_journal { (place : ℕ) → result ≡ Err (JournalError.NotAJournal place)
        → HasBadGate bytes.now place }
    ensures disk { result ≢ Err JournalError.Disk }
    ensures needs_start { result ≢ Err JournalError.NeedsStart }
{
    let mut list = ReadEntries::new(alloc);
    let mut rest = bytes;
    while rest[0] != CLOSED {
        match take_batch(alloc, &mut list, &rest[1..]) {
            Ok(after) => rest = after,
            Err(RecordError::NotARecord) => {
                let place = (bytes.len() - rest.len()) as u64;
                return Err(JournalError::NotAJournal { place });
            }
            Err(RecordError::Memory(error)) => return Err(JournalError::Memory(error)),
        }
    }
    Ok(ReadJournal {
        entries: list.into_entries(),
        gate: (bytes.len() - rest.len()) as u64,
    })
}

/// Reads what bytes stand for, up to the first bad gate.
pub(crate) fn read_journal(alloc: Global, bytes: &[u8]) -> Result<ReadJournal, JournalError>
    ensures ok { IfOk result (λ read. IsRead bytes.now read.entries read.gate) }
    ensures gate { IfOk result (λ read. read.gate + 1 < 2 ^ 64) }
    ensures ordered { IfOk result (λ read. IsOrdered read.entries) }
    ensures low { IfOk result (λ read. AreLow read.entries) }
    ensures not_a_journal { (place : ℕ) → result ≡ Err (JournalError.NotAJournal place)
        → HasBadGate bytes.now place }
    ensures disk { result ≢ Err JournalError.Disk }
    ensures needs_start { result ≢ Err JournalError.NeedsStart }
{
    if bytes.len() < 2 {
        return Ok(ReadJournal {
            entries: Entries::new(alloc),
            gate: 0,
        });
    }
    read_batches(alloc, bytes)
}
