//! Reading values.
ghost use Rattle.std.specs.Prelude.{◌≤◌, length, drop, IfOk, IfErr};
ghost use Rattle.subscript_keys.specs.declared.limits.TheConstants.{VALUE_LIMIT};
ghost use Rattle.global_text.specs.Strings.{ReadsString};
ghost use Rattle.global_text.specs.Faults.{HasValueFault};

use crate::room::Room;
use crate::string_error::StringError;
use crate::string_reader::read_string;
use crate::text_error::TextError;
use std::alloc::Global;
use subscript_keys::ValueBytes;

/// The value that a text begins with, and how many bytes of the text it takes. Of several faults the first
/// from the left counts; a bare number's is where it begins.
pub fn read_value(alloc: Global, text: &[u8]) -> Result<(ValueBytes, usize), TextError>
    ensures ok { IfOk result (λ read. ReadsString read.0 text.now (drop read.1 text.now)) }
    ensures length { IfOk result (λ read. read.1 ≤ length text.now) }
    ensures limit { IfOk result (λ read. length read.0 ≤ VALUE_LIMIT) }
    ensures err { IfErr result (HasValueFault text.now) }
{
    match read_string(alloc, text, Room::Value) {
        Ok((string, rest)) => Ok((ValueBytes::from_vec(string), text.len() - rest.len())),
        Err(StringError::Bad) => Err(TextError::BadValue),
        Err(StringError::Unclosed) => Err(TextError::Unclosed),
        Err(StringError::TooLong) => Err(TextError::ValueTooLong),
        Err(StringError::Memory(error)) => Err(TextError::Memory(error)),
    }
}
