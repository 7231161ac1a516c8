ghost use Rattle.std.specs.Prelude.{◌≡◌, ◌≢◌, ◌↔◌, ◌++◌, ◌∷◌, [], ℕ, List, Bool, false, IsTrue, IfSome, IfNone};
ghost use Rattle.subscript_keys.specs.Decimal.{AreDigits, AreCanonical, AreDigitCharacters, BeginsWithNoDigit, BeginsAboveZero, EndsAboveZero, digits_read, fraction_text, number_text, sign_text};

use crate::limits::DIGIT_LIMIT;

/// The parts of a canonical number's text: its sign, and the characters of the digits before the point
/// and after it.
#[derive(Drop)]
pub struct NumberParts<'a> {
    pub negative: bool,
    pub whole: &'a [u8],
    pub fraction: &'a [u8],
}

/// Whether a minus sign comes first, and what follows it.
fn split_sign(text: &[u8]) -> (bool, &[u8])
    ensures whole { text.now ≡ sign_text result.0 ++ result.1.now }
    ensures plain { result.0 ≡ false → (rest : List ℕ) → result.1.now ≢ 45 ∷ rest }
{
    match text {
        [b'-', rest @ ..] => (true, rest),
        _ => (false, text),
    }
}

/// The digits that come first, and what follows them.
fn split_digits(text: &[u8]) -> (&[u8], &[u8])
    ensures whole { text.now ≡ result.0.now ++ result.1.now }
    ensures digits { AreDigitCharacters result.0.now }
    ensures rest { BeginsWithNoDigit result.1.now }
{
    for (place, character) in text.iter().enumerate() {
        if *character < b'0' || *character > b'9' {
            return text.split_at(place);
        }
    }
    text.split_at(text.len())
}

/// The digits after a point, where this is a point and digits; none, where it is nothing.
fn behind_point(text: &[u8]) -> Option<&[u8]>
    ensures digits { IfSome result (λ digits. AreDigitCharacters digits.now) }
    ensures some { IfSome result (λ digits. text.now ≡ fraction_text (digits_read digits.now)) }
    ensures none { IfNone result ((ds : List ℕ) → AreDigits ds → text.now ≢ fraction_text ds) }
{
    let Some((first, fraction)) = text.split_first() else {
        return Some(text);
    };
    if *first != b'.' || fraction.is_empty() {
        return None;
    }
    let (digits, rest) = split_digits(fraction);
    if !rest.is_empty() {
        return None;
    }
    Some(digits)
}

/// Whether the first digit is not 0.
fn begins_above_zero(digits: &[u8]) -> bool
    requires { AreDigitCharacters digits.now }
    ensures { IsTrue result ↔ BeginsAboveZero (digits_read digits.now) }
{
    match digits {
        [first, ..] => *first != b'0',
        [] => true,
    }
}

/// Whether the last digit is not 0.
fn ends_above_zero(digits: &[u8]) -> bool
    requires { AreDigitCharacters digits.now }
    ensures { IsTrue result ↔ EndsAboveZero (digits_read digits.now) }
{
    match digits {
        [.., last] => *last != b'0',
        [] => true,
    }
}

/// Whether these are the digits before and after the point of a canonical number.
fn are_canonical(whole: &[u8], fraction: &[u8]) -> bool
    requires whole { AreDigitCharacters whole.now }
    requires fraction { AreDigitCharacters fraction.now }
    ensures { IsTrue result ↔ AreCanonical (digits_read whole.now) (digits_read fraction.now) }
{
    let count = whole.len().saturating_add(fraction.len());
    if count == 0 {
        return false;
    }
    if count > DIGIT_LIMIT {
        return false;
    }
    begins_above_zero(whole) && ends_above_zero(fraction)
}

/// The parts of a canonical number's text other than 0.
pub fn number_parts(text: &[u8]) -> Option<NumberParts<'_>>
    ensures digits { IfSome result (λ parts.
        AreCanonical (digits_read parts.whole.now) (digits_read parts.fraction.now)) }
    ensures some { IfSome result (λ parts. text.now ≡ number_text parts.negative
        (digits_read parts.whole.now) (digits_read parts.fraction.now)) }
    ensures characters { IfSome result (λ parts.
        AreDigitCharacters parts.whole.now × AreDigitCharacters parts.fraction.now) }
    ensures none { IfNone result ((negative : Bool) (whole : List ℕ) (fraction : List ℕ) →
        AreCanonical whole fraction → text.now ≢ number_text negative whole fraction) }
{
    let (negative, unsigned) = split_sign(text);
    let (whole, rest) = split_digits(unsigned);
    let fraction = behind_point(rest)?;
    if !are_canonical(whole, fraction) {
        return None;
    }
    Some(NumberParts {
        negative,
        whole,
        fraction,
    })
}
