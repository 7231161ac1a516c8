//! Printing values.
ghost use Rattle.std.specs.Prelude.{◌≡◌, OnOk, OnErr};
ghost use Rattle.subscript_keys.specs.Key.{AreBytes};
ghost use Rattle.global_text.specs.Printed.{IsPrinted, Appends};

use crate::string_writer::put_string;
use std::alloc::AllocError;
use subscript_keys::ValueBytes;

/// Appends the value's one printed spelling.
pub fn print_value(value: &ValueBytes, to: &mut Vec<u8>) -> Result<(), AllocError>
    ensures ok { OnOk result (Appends (IsPrinted value.now) to.old.items to.new.items) }
    ensures err { OnErr result (to.new.items ≡ to.old.items) }
    ensures bytes { AreBytes value.now }
{
    let length = to.len();
    if let Err(error) = put_string(to, value.as_slice()) {
        to.truncate(length);
        return Err(error);
    }
    Ok(())
}
