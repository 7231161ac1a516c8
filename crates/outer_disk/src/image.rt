//! The images that a crash of a disk in memory may leave.
ghost use Rattle.std.specs.Prelude.{◌≡◌, ◌+◌, ◌-◌, ◌<◌, ◌≤◌, ◌||◌, if◌then◌else◌, ℕ, false, length, drop, IfOk, IsTrue, OnOk, OnErr, Some, slice_get, slice_index};
ghost use Rattle.std.specs.List.{slice_index_or};
ghost use Rattle.outer_disk.specs.Calls.{after, bytes_after, IsWithin, AreWithin, MayLeave};
ghost use Rattle.outer_disk.specs.Crash.{is_in, is_unsynced, next_number, byte_by, IsPicked, IsImage, HasNoSync};
ghost use Rattle.outer_disk.specs.Disk.{written};

use crate::disk_call::DiskCall;
use std::alloc::{AllocError, Global};

/// Writes a part over the bytes from a place on, and past their end.
pub(crate) fn write_into(bytes: &mut Vec<u8>, at: usize, part: &[u8]) -> Result<(), AllocError>
    requires { at ≤ length bytes.old.items }
    ensures ok { OnOk result (bytes.new.items ≡ written bytes.old.items at part.now) }
    ensures err { OnErr result (bytes.new.items ≡ bytes.old.items) }
{
    let inside = bytes.len() - at;
    if part.len() <= inside {
        bytes[at..at + part.len()].copy_from_slice(part);
        return Ok(());
    }
    bytes.extend_from_slice(&part[inside..])?;
    bytes[at..at + inside].copy_from_slice(&part[..inside]);
    Ok(())
}

/// Does to the bytes what a call does.
fn apply(bytes: &mut Vec<u8>, call: &DiskCall) -> Result<(), AllocError>
    requires { IsWithin bytes.old.items call.now }
    ensures { OnOk result (bytes.new.items ≡ after bytes.old.items call.now) }
{
    match call {
        DiskCall::Write { at, part } => write_into(bytes, *at as usize, part.as_slice()),
        DiskCall::Cut { to } => {
            bytes.truncate(*to as usize);
            Ok(())
        }
        DiskCall::Sync => Ok(()),
    }
}

/// The bytes after the calls, made anew from the first ones.
pub(crate) fn replayed(
    alloc: Global,
    first: &[u8],
    calls: &[DiskCall],
) -> Result<Vec<u8>, AllocError>
    requires { AreWithin first.now calls.now }
    ensures { IfOk result (λ bytes. bytes.items ≡ bytes_after first.now calls.now) }
{
    let mut bytes = first.to_vec(alloc)?;
    for call in calls {
        apply(&mut bytes, call)?;
    }
    Ok(bytes)
}

/// How many calls there are up to the last sync, and with it; 0 where there is none.
pub(crate) fn synced_calls(calls: &[DiskCall]) -> usize
    ensures within { result ≤ length calls.now }
    ensures none_later { HasNoSync (drop result calls.now) }
    ensures sync { 0 < result → slice_get calls.now (result - 1) ≡ Some DiskCall.Sync }
{
    let mut count = calls.len();
    while count > 0 {
        if let DiskCall::Sync = &calls[count - 1] {
            return count;
        }
        count -= 1;
    }
    0
}

/// Marks a range of places, as far as there are places.
fn mark(marks: &mut [bool], at: usize, count: usize)
    ensures { (place : ℕ) → place < length marks.old → slice_index_or marks.new place false
        ≡ (slice_index_or marks.old place false || is_in at count place) }
{
    let from = at.min(marks.len());
    let to = from + count.min(marks.len() - from);
    marks[from..to].fill(true);
}

/// Which of so many places were written by the calls, none of which is a sync.
pub(crate) fn marks_of(
    alloc: Global,
    count: usize,
    calls: &[DiskCall],
) -> Result<Vec<bool>, AllocError>
    requires { HasNoSync calls.now }
    ensures length { IfOk result (λ marks. length marks.items ≡ count) }
    ensures each { IfOk result (λ marks. (place : ℕ) → place < count
        → slice_index_or marks.items place false ≡ is_unsynced false calls.now place) }
{
    let mut marks = vec![in alloc; false; count]?;
    for call in calls {
        if let DiskCall::Write { at, part } = call {
            mark(&mut marks, *at as usize, part.as_slice().len());
        }
    }
    Ok(marks)
}

/// The number that follows a number, by the rule of the picks.
fn next_number(number: u64) -> u64
    ensures { result ≡ next_number number }
{
    number
        .wrapping_mul(6364136223846793005)
        .wrapping_add(1442695040888963407)
}

/// The byte that a number gives, of the one that was written and that of the last sync.
fn chosen_byte(number: u64, written: u8, synced: u8) -> u8
    ensures { result ≡ byte_by number written synced }
{
    match number / (1 << 62) {
        0 => written,
        1 => synced,
        _ => (number / (1 << 40) % 256) as u8,
    }
}

/// The number after a place and the byte of the image there: a byte that isn't marked stays.
fn picked_byte(number: u64, is_marked: bool, written: u8, synced: u8) -> (u64, u8)
    ensures number { result.0 ≡ (if is_marked then next_number number else number) }
    ensures byte { result.1
        ≡ (if is_marked then byte_by (next_number number) written synced else written) }
{
    if !is_marked {
        return (number, written);
    }
    let next = next_number(number);
    (next, chosen_byte(next, written, synced))
}

/// The byte at a place, or 0 past the end.
fn byte_at(bytes: &[u8], place: usize) -> u8
    ensures { result ≡ slice_index bytes.now place }
{
    bytes.get(place).copied().unwrap_or(0)
}

/// The image of a pick above 1: the next number decides of each marked byte in turn, and other bytes stay.
pub(crate) fn picked_image(
    alloc: Global,
    pick: u64,
    bytes: &[u8],
    synced: &[u8],
    marks: &[bool],
) -> Result<Vec<u8>, AllocError>
    requires { length marks.now ≡ length bytes.now }
    ensures { IfOk result (λ image. IsPicked pick (λ place. slice_index_or marks.now place false)
        bytes.now synced.now image.items) }
{
    let mut image = Vec::with_capacity(alloc, bytes.len())?;
    let mut number = pick;
    for place in 0..bytes.len() {
        let (next, byte) = picked_byte(number, marks[place], bytes[place], byte_at(synced, place));
        number = next;
        image.push(byte)?;
    }
    Ok(image)
}

/// The image that a pick leaves of a disk with these first bytes, these bytes and these calls.
pub(crate) fn image_of(
    alloc: Global,
    pick: u64,
    first: &[u8],
    bytes: &[u8],
    calls: &[DiskCall],
) -> Result<Vec<u8>, AllocError>
    requires within { AreWithin first.now calls.now }
    requires bytes { bytes.now ≡ bytes_after first.now calls.now }
    ensures image { IfOk result (λ image. IsImage pick first.now calls.now image.items) }
    ensures allowed { IfOk result (λ image. MayLeave first.now calls.now image.items) }
{
    if pick == 1 {
        let same = bytes.to_vec(alloc)?;
        return Ok(same);
    }
    let count = synced_calls(calls);
    let synced = replayed(alloc, first, &calls[..count])?;
    if pick == 0 {
        return Ok(synced);
    }
    let marks = marks_of(alloc, bytes.len(), &calls[count..])?;
    let image = picked_image(alloc, pick, bytes, &synced, &marks)?;
    Ok(image)
}
