//! The printed spelling of strings.
ghost use Rattle.std.specs.Prelude.{◌≡◌, ◌++◌, ◌<◌, OnOk};
ghost use Rattle.subscript_keys.specs.Decimal.{BeginsWith};
ghost use Rattle.subscript_keys.specs.Key.{AreBytes};
ghost use Rattle.global_text.specs.Strings.{hex_digit};
ghost use Rattle.global_text.specs.Printed.{quoted_byte, quoted, IsPrinted, Appends};

use std::alloc::AllocError;
use subscript_keys::Decimal;

/// A hexadecimal digit, in lower case.
fn hex_digit(number: u8) -> u8
    requires { number < 16 }
    ensures { result ≡ hex_digit number }
{
    if number < 10 {
        number + b'0'
    } else {
        number - 10 + b'a'
    }
}

/// Appends a byte as it stands in quotes.
fn put_byte(to: &mut Vec<u8>, byte: u8) -> Result<(), AllocError>
    ensures ok { OnOk result (to.new.items ≡ to.old.items ++ quoted_byte byte) }
    ensures front { BeginsWith to.new.items to.old.items }
{
    match byte {
        b'"' => to.extend_from_slice(b"\"\""),
        b'\\' => to.extend_from_slice(b"\\\\"),
        b' '..=b'~' => to.extend_from_slice(&[byte]),
        _ => to.extend_from_slice(&[b'\\', hex_digit(byte / 16), hex_digit(byte % 16)]),
    }
}

/// Appends a string in quotes. After an `Err` a part of it may stand there.
pub fn put_quoted(to: &mut Vec<u8>, string: &[u8]) -> Result<(), AllocError>
    ensures ok { OnOk result (to.new.items ≡ to.old.items ++ quoted string.now) }
    ensures front { BeginsWith to.new.items to.old.items }
    ensures bytes { AreBytes string.now }
{
    to.extend_from_slice(b"\"")?;
    for byte in string {
        put_byte(to, *byte)?;
    }
    to.extend_from_slice(b"\"")
}

/// Appends a string's printed spelling. After an `Err` a part of it may stand there.
pub fn put_string(to: &mut Vec<u8>, string: &[u8]) -> Result<(), AllocError>
    ensures ok { OnOk result (Appends (IsPrinted string.now) to.old.items to.new.items) }
    ensures front { BeginsWith to.new.items to.old.items }
    ensures bytes { AreBytes string.now }
{
    if Decimal::read(string).is_some() {
        return to.extend_from_slice(string);
    }
    put_quoted(to, string)
}
