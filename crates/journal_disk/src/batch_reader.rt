ghost use Rattle.std.specs.Prelude.{◌≡◌, ◌<◌, Err, length, OnOk, IfOk, IfSome, IfNone};
ghost use Rattle.plain_orders.specs.Ordered.{IsOrdered};
ghost use Rattle.journal_disk.specs.Reading.{TakesRecord, NoRecordMay, TakesRecords, NoRecordsMay, TakesBody, NoBodyAhead, TakesBatch, NoBatchAhead};

use crate::batch_writer::{BODY_LIMIT, VERSION};
use crate::read_entries::ReadEntries;
use field_bytes::take_u32;
use journal_records::{RecordError, read_entry};
use std::alloc::Global;

/// Reads the record that stands in front, and answers what follows it; `NotARecord` where no record of an entry
/// that may follow stands there.
fn take_record<'a>(
    alloc: Global,
    list: &mut ReadEntries,
    bytes: &'a [u8],
) -> Result<&'a [u8], RecordError>
    ensures some { IfOk result (λ rest. TakesRecord list.old list.new bytes.now rest.now) }
    ensures none { result ≡ Err RecordError.NotARecord → NoRecordMay list.old bytes.now }
{
    let (entry, size) = read_entry(alloc, bytes)?;
    if !list.push(alloc, &entry)? {
        return Err(RecordError::NotARecord);
    }
    Ok(&bytes[size..])
}

/// Reads records up to the end of the bytes; `NotARecord` where they are no records of entries that may follow.
fn take_records(alloc: Global, list: &mut ReadEntries, bytes: &[u8]) -> Result<(), RecordError>
    requires { IsOrdered list.old }
    ensures took { OnOk result (TakesRecords list.old list.new bytes.now) }
    ensures refused { result ≡ Err RecordError.NotARecord → NoRecordsMay list.old bytes.now }
{
    let mut rest = bytes;
    while !rest.is_empty() {
        rest = take_record(alloc, list, rest)?;
    }
    Ok(())
}

/// The records of the batch whose length stands in front, and what follows it, where it is whole and another
/// gate stands after it.
fn take_body(bytes: &[u8]) -> Option<(&[u8], &[u8])>
    ensures some { IfSome result (λ got. TakesBody bytes.now got.0.now got.1.now) }
    ensures none { IfNone result (NoBodyAhead bytes.now) }
{
    let (length, rest) = take_u32(bytes)?;
    let length = length as usize;
    if length < 2 {
        return None;
    }
    if length > BODY_LIMIT {
        return None;
    }
    if rest.len() <= length {
        return None;
    }
    let (body, after) = rest.split_at(length);
    let (version, records) = body.split_first()?;
    if *version != VERSION {
        return None;
    }
    Some((records, after))
}

/// Reads the batch whose length stands in front, and answers what follows it, which begins with the next gate;
/// `NotARecord` where no well formed batch stands there.
pub(crate) fn take_batch<'a>(
    alloc: Global,
    list: &mut ReadEntries,
    bytes: &'a [u8],
) -> Result<&'a [u8], RecordError>
    requires { IsOrdered list.old }
    ensures some { IfOk result (λ rest. TakesBatch list.old list.new bytes.now rest.now) }
    ensures none { result ≡ Err RecordError.NotARecord → NoBatchAhead list.old bytes.now }
{
    let (records, after) = take_body(bytes).ok_or(RecordError::NotARecord)?;
    take_records(alloc, list, records)?;
    Ok(after)
}
