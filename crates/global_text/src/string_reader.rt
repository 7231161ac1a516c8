//! Strings as they are written, read from the left.
ghost use Rattle.std.specs.Prelude.{◌==◌, ◌∷◌, IfOk, IfErr};
ghost use Rattle.global_text.specs.Rooms.{HasRoom};
ghost use Rattle.global_text.specs.Strings.{NoItem, BeginsQuoted, ReadsString};
ghost use Rattle.global_text.specs.Numbers.{BeginsOtherwise};
ghost use Rattle.global_text.specs.Faults.{HasStringFault};

use crate::item::take_item;
use crate::number_form::{is_number, split_number};
use crate::room::{Room, has_room, room_limit};
use crate::string_error::StringError;
use std::alloc::{AllocError, Global};

/// The bytes of the items that come first, and what follows them, where no item stands any more. More than any
/// string has that has room are not read.
fn take_items(alloc: Global, text: &[u8], room: Room) -> Result<(Vec<u8>, &[u8]), StringError>
    ensures ok { IfOk result (λ taken. BeginsQuoted taken.0.items (34 ∷ text.now) taken.1.now) }
    ensures stop { IfOk result (λ taken. NoItem taken.1.now) }
    ensures err { IfErr result (HasStringFault room (34 ∷ text.now)) }
{
    let limit = room_limit(room);
    let mut string = Vec::new(alloc);
    let mut rest = text;
    while let Some((byte, after)) = take_item(rest) {
        if string.len() >= limit {
            return Err(StringError::TooLong);
        }
        string
            .push(byte)
            .map_err(|_| StringError::Memory(AllocError))?;
        rest = after;
    }
    Ok((string, rest))
}

/// The bytes of the items that come first, which have room, and what follows them.
fn take_string(alloc: Global, text: &[u8], room: Room) -> Result<(Vec<u8>, &[u8]), StringError>
    ensures ok { IfOk result (λ taken. BeginsQuoted taken.0.items (34 ∷ text.now) taken.1.now) }
    ensures stop { IfOk result (λ taken. NoItem taken.1.now) }
    ensures room { IfOk result (λ taken. HasRoom room taken.0.items) }
    ensures err { IfErr result (HasStringFault room (34 ∷ text.now)) }
{
    let (string, rest) = take_items(alloc, text, room)?;
    if !has_room(room, string.as_slice()) {
        return Err(StringError::TooLong);
    }
    Ok((string, rest))
}

/// The string after its first quote, and what follows its last one.
fn read_quoted(alloc: Global, text: &[u8], room: Room) -> Result<(Vec<u8>, &[u8]), StringError>
    ensures ok { IfOk result (λ read. ReadsString read.0.items (34 ∷ text.now) read.1.now) }
    ensures room { IfOk result (λ read. HasRoom room read.0.items) }
    ensures err { IfErr result (HasStringFault room (34 ∷ text.now)) }
{
    let (string, rest) = take_string(alloc, text, room)?;
    let Some((stop, after)) = rest.split_first() else {
        return Err(StringError::Unclosed);
    };
    match *stop {
        b'"' => Ok((string, after)),
        b'\n' => Err(StringError::Unclosed),
        _ => Err(StringError::Bad),
    }
}

/// The bare number that comes first, and what follows it.
fn read_bare(alloc: Global, text: &[u8], room: Room) -> Result<(Vec<u8>, &[u8]), StringError>
    requires { BeginsOtherwise (λ b. b == 34) text.now }
    ensures ok { IfOk result (λ read. ReadsString read.0.items text.now read.1.now) }
    ensures room { IfOk result (λ read. HasRoom room read.0.items) }
    ensures err { IfErr result (HasStringFault room text.now) }
{
    let (number, rest) = split_number(text);
    if !is_number(number) {
        return Err(StringError::Bad);
    }
    if !has_room(room, number) {
        return Err(StringError::TooLong);
    }
    let string = Vec::from_slice(alloc, number).map_err(StringError::Memory)?;
    Ok((string, rest))
}

/// The string that a text begins with, which has room, and what follows it.
pub fn read_string(alloc: Global, text: &[u8], room: Room) -> Result<(Vec<u8>, &[u8]), StringError>
    ensures ok { IfOk result (λ read. ReadsString read.0.items text.now read.1.now) }
    ensures room { IfOk result (λ read. HasRoom room read.0.items) }
    ensures err { IfErr result (HasStringFault room text.now) }
{
    match text {
        [b'"', quoted @ ..] => read_quoted(alloc, quoted, room),
        _ => read_bare(alloc, text, room),
    }
}
