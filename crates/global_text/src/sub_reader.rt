//! Reading a subscript.
ghost use Rattle.std.specs.Prelude.{◌≡◌, ◌≤◌, ◌+◌, ◌↔◌, length, IfOk, IfErr, IsTrue};
ghost use Rattle.subscript_keys.specs.declared.limits.TheConstants.{KEY_LIMIT};
ghost use Rattle.subscript_keys.specs.Key.{HasForm};
ghost use Rattle.global_text.specs.Strings.{ReadsString, IsLineEnd};
ghost use Rattle.global_text.specs.Nodes.{sub_string, sub_size, ReadsSub};
ghost use Rattle.global_text.specs.Faults.{HasSubFault};

use crate::room::Room;
use crate::string_error::StringError;
use crate::string_reader::read_string;
use crate::sub_length::sub_length;
use crate::text_error::TextError;
use std::alloc::Global;
use subscript_keys::{Decimal, KEY_LIMIT, Sub, SubText};

/// Whether the text ends here, or its line does.
pub fn is_line_end(text: &[u8]) -> bool
    ensures { IsTrue result ↔ IsLineEnd text.now }
{
    match text {
        [first, ..] => *first == b'\n',
        [] => true,
    }
}

/// The subscript of a string: a number, where the string is one of at most `DIGIT_LIMIT` digits.
fn sub_of(string: Vec<u8>) -> Sub
    ensures form { HasForm result }
    ensures string { sub_string result ≡ string.items }
{
    match Decimal::read(string.as_slice()) {
        Some(number) => Sub::Num(number),
        None => Sub::Text(SubText::from_vec(string)),
    }
}

/// The string of a subscript after a key of this length, and what follows it.
fn read_sub_string(alloc: Global, text: &[u8], key: usize) -> Result<(Vec<u8>, &[u8]), TextError>
    ensures ok { IfOk result (λ read. ReadsString read.0.items text.now read.1.now) }
    ensures limit { IfOk result (λ read. length read.0.items ≤ KEY_LIMIT) }
    ensures err { IfErr result (HasSubFault key text.now) }
{
    if is_line_end(text) {
        return Err(TextError::Unclosed);
    }
    match read_string(alloc, text, Room::Sub { key }) {
        Ok(read) => Ok(read),
        Err(StringError::Bad) => Err(TextError::BadSubscript),
        Err(StringError::Unclosed) => Err(TextError::Unclosed),
        Err(StringError::TooLong) => Err(TextError::KeyTooLong),
        Err(StringError::Memory(error)) => Err(TextError::Memory(error)),
    }
}

/// The subscript after a key of this length, how much of its limit the key takes with it, and what follows the
/// subscript.
pub fn read_sub(alloc: Global, text: &[u8], key: usize) -> Result<(Sub, usize, &[u8]), TextError>
    requires { key ≤ KEY_LIMIT }
    ensures ok { IfOk result (λ read. ReadsSub read.0 text.now read.2.now) }
    ensures key { IfOk result (λ read. read.1 ≡ key + sub_size read.0) }
    ensures within { IfOk result (λ read. read.1 ≤ KEY_LIMIT) }
    ensures err { IfErr result (HasSubFault key text.now) }
{
    let (string, rest) = read_sub_string(alloc, text, key)?;
    let sub = sub_of(string);
    let longer = key + sub_length(&sub);
    if longer > KEY_LIMIT {
        return Err(TextError::KeyTooLong);
    }
    Ok((sub, longer, rest))
}
