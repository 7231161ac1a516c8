//! Canonical numbers of any length.
ghost use Rattle.std.specs.Prelude.{◌≡◌, ◌==◌, ◌↔◌, ◌++◌, IsTrue};
ghost use Rattle.std.specs.Char.{is_ascii_digit};
ghost use Rattle.global_text.specs.Numbers.{Every, BeginsOtherwise, EndsInNonzeroDigit, IsFraction, IsUnsigned, IsNumber, is_number_byte};

/// The digits that come first, and what follows them.
fn split_digits(text: &[u8]) -> (&[u8], &[u8])
    ensures whole { text.now ≡ result.0.now ++ result.1.now }
    ensures digits { Every is_ascii_digit result.0.now }
    ensures rest { BeginsOtherwise is_ascii_digit result.1.now }
{
    for (place, byte) in text.iter().enumerate() {
        if !byte.is_ascii_digit() {
            return text.split_at(place);
        }
    }
    text.split_at(text.len())
}

/// Whether no 0 comes first.
fn begins_above_zero(text: &[u8]) -> bool
    ensures { IsTrue result ↔ BeginsOtherwise (λ b. b == 48) text.now }
{
    match text {
        [first, ..] => *first != b'0',
        [] => true,
    }
}

/// Whether there is a last byte, and it is no 0.
fn ends_in_nonzero_digit(text: &[u8]) -> bool
    ensures { IsTrue result ↔ EndsInNonzeroDigit text.now }
{
    match text {
        [.., last] => *last != b'0',
        [] => false,
    }
}

/// Whether these are the digits after a point.
fn is_fraction(text: &[u8]) -> bool
    ensures { IsTrue result ↔ IsFraction text.now }
{
    let (digits, rest) = split_digits(text);
    if !rest.is_empty() {
        return false;
    }
    ends_in_nonzero_digit(digits)
}

/// Whether these are a canonical number's digits and point.
fn is_unsigned(text: &[u8]) -> bool
    ensures { IsTrue result ↔ IsUnsigned text.now }
{
    let (whole, rest) = split_digits(text);
    if !begins_above_zero(whole) {
        return false;
    }
    let Some((point, fraction)) = rest.split_first() else {
        return !whole.is_empty();
    };
    *point == b'.' && is_fraction(fraction)
}

/// Whether a text is a canonical number, of any length.
pub fn is_number(text: &[u8]) -> bool
    ensures { IsTrue result ↔ IsNumber text.now }
{
    match text {
        [b'0'] => true,
        [b'-', unsigned @ ..] => is_unsigned(unsigned),
        _ => is_unsigned(text),
    }
}

/// The digits, points and minus signs that come first, and what follows them.
pub fn split_number(text: &[u8]) -> (&[u8], &[u8])
    ensures whole { text.now ≡ result.0.now ++ result.1.now }
    ensures bytes { Every is_number_byte result.0.now }
    ensures rest { BeginsOtherwise is_number_byte result.1.now }
{
    for (place, byte) in text.iter().enumerate() {
        if !matches!(byte, b'0'..=b'9' | b'.' | b'-') {
            return text.split_at(place);
        }
    }
    text.split_at(text.len())
}
