//! How many bytes of a string have room.
ghost use Rattle.std.specs.Prelude.{◌≡◌, ◌≤◌, ◌+◌, ◌↔◌, length, IsTrue};
ghost use Rattle.subscript_keys.specs.declared.limits.TheConstants.{KEY_LIMIT};
ghost use Rattle.subscript_keys.specs.Key.{text_bytes};
ghost use Rattle.global_text.specs.Rooms.{MayBeNumber, HasRoom, room_limit};

use crate::number_form::split_number;
use crate::sub_length::text_length;
use subscript_keys::{DIGIT_LIMIT, KEY_LIMIT, VALUE_LIMIT};

/// What a string is read for, which says how many of its bytes have room.
#[derive(Clone, Copy)]
pub enum Room {
    Value,
    /// A subscript after a key of this length.
    Sub { key: usize },
}

/// How many characters a number has at most that is no text: a sign, a point and its digits.
const NUMBER_ROOM: usize = DIGIT_LIMIT + 2;

/// Whether a string may turn out to be the number of a subscript.
fn may_be_number(string: &[u8]) -> bool
    ensures { IsTrue result ↔ MayBeNumber string.now }
{
    let (_, rest) = split_number(string);
    if !rest.is_empty() {
        return false;
    }
    string.len() <= NUMBER_ROOM
}

/// Whether a key of this length has room for a text.
fn has_text_room(key: usize, string: &[u8]) -> bool
    ensures { IsTrue result ↔ (key + length (text_bytes string.now) ≤ KEY_LIMIT) }
{
    if string.len() > KEY_LIMIT {
        return false;
    }
    text_length(string) <= KEY_LIMIT.saturating_sub(key)
}

/// Whether the bytes of a string have room.
pub fn has_room(room: Room, string: &[u8]) -> bool
    ensures { IsTrue result ↔ HasRoom room string.now }
{
    match room {
        Room::Value => string.len() <= VALUE_LIMIT,
        Room::Sub { key } => may_be_number(string) || has_text_room(key, string),
    }
}

/// How many bytes a string has at most that has room.
pub fn room_limit(room: Room) -> usize
    ensures { result ≡ room_limit room }
{
    match room {
        Room::Value => VALUE_LIMIT,
        Room::Sub { .. } => KEY_LIMIT,
    }
}
