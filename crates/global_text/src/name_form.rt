//! Names of globals.
ghost use Rattle.std.specs.Prelude.{◌≡◌, ◌↔◌, ◌++◌, IsTrue};
ghost use Rattle.std.specs.Char.{is_ascii_alphanumeric};
ghost use Rattle.subscript_keys.specs.Key.{IsName};
ghost use Rattle.global_text.specs.Numbers.{Every, BeginsOtherwise};

use subscript_keys::GLOBAL_NAME_LIMIT;

/// The letters and digits that come first, and what follows them.
pub fn split_name(text: &[u8]) -> (&[u8], &[u8])
    ensures whole { text.now ≡ result.0.now ++ result.1.now }
    ensures bytes { Every is_ascii_alphanumeric result.0.now }
    ensures rest { BeginsOtherwise is_ascii_alphanumeric result.1.now }
{
    for (place, byte) in text.iter().enumerate() {
        if !byte.is_ascii_alphanumeric() {
            return text.split_at(place);
        }
    }
    text.split_at(text.len())
}

/// Whether letters and digits are the name of a global.
pub fn is_name(text: &[u8]) -> bool
    requires { Every is_ascii_alphanumeric text.now }
    ensures { IsTrue result ↔ IsName text.now }
{
    match text {
        [first, others @ ..] => first.is_ascii_alphabetic() && others.len() < GLOBAL_NAME_LIMIT,
        [] => false,
    }
}
