ghost use Rattle.std.specs.Prelude.{◌≡◌, ◌≢◌, ◌↔◌, ◌+◌, ◌-◌, ◌*◌, ◌^◌, ◌%◌, ◌<◌, ◌≤◌, ◌++◌, length, replicate, IsSome, IfSome, Some};
ghost use Rattle.std.specs.Int.Digits.{number_from_digits_after};
ghost use Rattle.subscript_keys.specs.declared.decimal.Decimal.{Decimal};
ghost use Rattle.subscript_keys.specs.declared.limits.TheConstants.{NUMBER_LIMIT};
ghost use Rattle.subscript_keys.specs.Decimal.{digits, decimal_text, number_text, digits_read, AreCanonical, AreDigitCharacters, IsDecimal, IsShort, IsNumberText};

use crate::decimal::Decimal;
use crate::digits::Digits;
use crate::number_parts::{NumberParts, number_parts};

/// The number that digits write after those of `start`.
fn value_after(start: u64, digits: &[u8]) -> u64
    requires digits { AreDigitCharacters digits.now }
    requires small { (start + 1) * 10 ^ length digits.now ≤ NUMBER_LIMIT }
    ensures { result ≡ number_from_digits_after 10 start (digits_read digits.now) }
{
    let mut value = start;
    for digit in digits {
        value = value * 10 + u64::from(*digit - b'0');
    }
    value
}

/// The number without the zeros at its end.
fn without_end_zeros(number: u64) -> u64
    requires { 0 < number }
    ensures last { result % 10 ≢ 0 }
    ensures zeros { digits result ++ replicate (length (digits number) - length (digits result)) 0 ≡ digits number }
{
    let mut rest = number;
    while rest % 10 == 0 {
        rest /= 10;
    }
    rest
}

/// The number that the parts write.
fn number_of(parts: &NumberParts) -> Decimal
    requires digits { AreCanonical (digits_read parts.now.whole.now) (digits_read parts.now.fraction.now) }
    requires whole { AreDigitCharacters parts.now.whole.now }
    requires fraction { AreDigitCharacters parts.now.fraction.now }
    ensures short { IsShort result }
    ensures text { decimal_text result ≡ number_text parts.now.negative
        (digits_read parts.now.whole.now) (digits_read parts.now.fraction.now) }
{
    let negative = parts.negative;
    let digits = value_after(value_after(0, parts.whole), parts.fraction);
    let whole = parts.whole.len();
    let fraction = parts.fraction.len();
    if fraction == 0 {
        let digits = without_end_zeros(digits);
        return Decimal {
            negative,
            exponent: whole as i8,
            digits,
        };
    }
    if whole == 0 {
        let zeros = fraction - Digits::of(digits).as_slice().len();
        return Decimal {
            negative,
            exponent: -(zeros as i8),
            digits,
        };
    }
    Decimal {
        negative,
        exponent: whole as i8,
        digits,
    }
}

impl Decimal {
    /// The number 0.
    pub const ZERO: Decimal = Decimal {
        negative: false,
        exponent: 0,
        digits: 0,
    };

    /// The number whose canonical text this is, of at most `DIGIT_LIMIT` digits.
    pub fn read(text: &[u8]) -> Option<Decimal>
        ensures some { IsSome result ↔ IsNumberText text.now }
        ensures value { IfSome result (λ number. IsDecimal number × (decimal_text number ≡ text.now)) }
        ensures again { (number : Decimal) → IsDecimal number → decimal_text number ≡ text.now →
            result ≡ Some number }
    {
        if text.len() == 1 && text[0] == b'0' {
            return Some(Decimal::ZERO);
        }
        let parts = number_parts(text)?;
        Some(number_of(&parts))
    }
}
