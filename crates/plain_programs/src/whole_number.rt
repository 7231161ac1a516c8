ghost use Rattle.std.specs.Prelude.{◌≡◌, ◌+ℤ◌, ◌<◌, ◌≤◌, ◌^◌, IsTrue, IfOk, length, pos, if◌then◌else◌};
ghost use Rattle.std.specs.List.{list_all};
ghost use Rattle.subscript_keys.specs.declared.limits.TheConstants.{DIGIT_LIMIT, NUMBER_LIMIT};
ghost use Rattle.plain_orders.specs.Numbers.{is_digit, is_natural, number_from, whole_of, integer_text};
ghost use Rattle.plain_orders.specs.Fold.{sum_of};

use plain_orders::Sum;
use std::alloc::{AllocError, Global};
use subscript_keys::{DIGIT_LIMIT, NUMBER_LIMIT, ValueBytes};

/// Whether all bytes are digits.
fn are_digits(bytes: &[u8]) -> bool
    ensures { result ≡ list_all is_digit bytes.now }
{
    bytes.iter().all(|b| 48 <= *b && *b <= 57)
}

/// Whether the bytes write a natural number of at most `DIGIT_LIMIT` digits in its canonical spelling.
fn is_natural(bytes: &[u8]) -> bool
    ensures { result ≡ is_natural bytes.now }
{
    let Some((first, rest)) = bytes.split_first() else {
        return false;
    };
    are_digits(bytes) && bytes.len() <= DIGIT_LIMIT && (*first > 48 || rest.is_empty())
}

/// The number that at most `DIGIT_LIMIT` digits write.
fn number(digits: &[u8]) -> u64
    requires digits { IsTrue (list_all is_digit digits.now) }
    requires few { length digits.now ≤ DIGIT_LIMIT }
    ensures value { result ≡ number_from 0 digits.now }
    ensures small { result < NUMBER_LIMIT }
{
    let mut number = 0u64;
    for digit in digits {
        number = number * 10 + u64::from(*digit - 48);
    }
    number
}

/// The natural number of at most `DIGIT_LIMIT` digits of which the bytes are the canonical spelling.
fn natural_of(bytes: &[u8]) -> Option<i64>
    ensures { result ≡ (if is_natural bytes.now then Some (pos (number_from 0 bytes.now)) else None) }
{
    if !is_natural(bytes) {
        return None;
    }
    Some(number(bytes) as i64)
}

/// The whole number of at most `DIGIT_LIMIT` digits of which the bytes are the canonical spelling.
pub fn whole_of(bytes: &[u8]) -> Option<i64>
    ensures value { result ≡ whole_of bytes.now }
{
    if let Some(number) = natural_of(bytes) {
        return Some(number);
    }
    let Some((45, digits)) = bytes.split_first() else {
        return None;
    };
    match natural_of(digits) {
        Some(size) if size > 0 => Some(-size),
        _ => None,
    }
}

/// The decimal text of a number as a value.
pub fn decimal_value(alloc: Global, number: i64) -> Result<ValueBytes, AllocError>
    ensures { IfOk result (λ value. value ≡ integer_text number) }
{
    let text = format!(in alloc; "{number}")?;
    Ok(ValueBytes::from_vec(text.into_bytes()))
}

/// The sum of a whole number and an amount, if it has at most `DIGIT_LIMIT` digits.
pub fn sum_of(number: i64, amount: i64) -> Sum
    ensures { result ≡ sum_of (number +ℤ amount) }
{
    match number.checked_add(amount) {
        Some(sum) if sum.unsigned_abs() < NUMBER_LIMIT => Sum::Whole(sum),
        _ => Sum::Range,
    }
}
