ghost use Rattle.std.specs.Prelude.{◌≡◌, ◌≢◌, ◌↔◌, ◌+◌, ◌-◌, ◌^◌, ◌<◌, ◌≤◌, ◌++◌, ◌∷◌, [], ℕ, List, length, map, IsTrue, IfSome, IfNone, IfOk, MatchOption};
ghost use Rattle.std.specs.Int.Digits.{number_from_digits, number_from_digits_after};
ghost use Rattle.subscript_keys.specs.declared.decimal.Decimal.{Decimal};
ghost use Rattle.subscript_keys.specs.declared.sub.Sub.{Sub};
ghost use Rattle.subscript_keys.specs.declared.limits.TheConstants.{DIGIT_LIMIT};
ghost use Rattle.subscript_keys.specs.Decimal.{IsDecimal, IsShort};
ghost use Rattle.subscript_keys.specs.Key.{decimal_bytes, text_bytes, sub_bytes, ArePlaces, BeginsWithNoPlace, IsPositive, IsNegative, IsSub, IsText, escaped};

use crate::decimal::Decimal;
use crate::digits::Digits;
use crate::limits::DIGIT_LIMIT;
use crate::sub::Sub;
use crate::sub_text::SubText;
use std::alloc::{AllocError, Global};

/// Whether the fields are those of a number other than zero.
#[tactic(auto, using(crate::proofs::Shortness::short_is, crate::proofs::Shortness::short_in))]
fn is_short(number: &Decimal) -> bool
    ensures { IsTrue result ↔ IsShort number.now }
{
    if number.digits % 10 == 0 {
        return false;
    }
    let exponent = i16::from(number.exponent);
    if exponent > DIGIT_LIMIT as i16 {
        return false;
    }
    let count = Digits::of(number.digits).as_slice().len();
    if count > DIGIT_LIMIT {
        return false;
    }
    if count as i16 - exponent > DIGIT_LIMIT as i16 {
        return false;
    }
    true
}

/// The bytes of digits that come first, and what follows them.
fn split_places(bytes: &[u8]) -> (&[u8], &[u8])
    ensures whole { bytes.now ≡ result.0.now ++ result.1.now }
    ensures places { ArePlaces result.0.now }
    ensures rest { BeginsWithNoPlace result.1.now }
{
    for (place, byte) in bytes.iter().enumerate() {
        if *byte < 1 || *byte > 10 {
            return bytes.split_at(place);
        }
    }
    bytes.split_at(bytes.len())
}

/// The number of a positive number's digits.
fn raised_value(places: &[u8]) -> u64
    requires places { ArePlaces places.now }
    requires count { length places.now ≤ DIGIT_LIMIT }
    ensures { result ≡ number_from_digits 10 (map (λ b. b - 1) places.now) }
{
    let mut value = 0;
    for place in places {
        value = value * 10 + u64::from(*place - 1);
    }
    value
}

/// The number of a negative number's digits.
fn lowered_value(places: &[u8]) -> u64
    requires places { ArePlaces places.now }
    requires count { length places.now ≤ DIGIT_LIMIT }
    ensures { result ≡ number_from_digits 10 (map (λ b. 10 - b) places.now) }
{
    let mut value = 0;
    for place in places {
        value = value * 10 + u64::from(10 - *place);
    }
    value
}

/// The text after its tag, and what follows its end; none where it doesn't end.
fn take_text(alloc: Global, bytes: &[u8]) -> Result<Option<(Vec<u8>, &[u8])>, AllocError>
    ensures some { IfOk result (λ taken. IfSome taken (λ t.
        bytes.now ≡ escaped t.0.items ++ 0 ∷ 1 ∷ t.1.now)) }
    ensures none { IfOk result (λ taken. IfNone taken ((text rest : List ℕ) →
        bytes.now ≢ escaped text ++ 0 ∷ 1 ∷ rest)) }
{
    let mut text = Vec::new(alloc);
    let mut rest = bytes;
    while let Some((first, after)) = rest.split_first() {
        if *first != 0x00 {
            text.push(*first)?;
            rest = after;
            continue;
        }
        let Some((second, tail)) = after.split_first() else {
            return Ok(None);
        };
        if *second == 0x01 {
            return Ok(Some((text, tail)));
        }
        if *second != 0xFF {
            return Ok(None);
        }
        text.push(0x00)?;
        rest = tail;
    }
    Ok(None)
}

/// The positive number that an exponent's byte and the bytes of digits stand for.
fn positive_number(exponent: u8, places: &[u8]) -> Option<Decimal>
    requires { ArePlaces places.now }
    ensures some { IfSome result (λ number. IsPositive number exponent places.now) }
    ensures none { IfNone result ((number : Decimal) → IsPositive number exponent places.now → ⊥) }
{
    if places.len() > DIGIT_LIMIT {
        return None;
    }
    if exponent < 0x2F {
        return None;
    }
    if exponent > 0x52 {
        return None;
    }
    let number = Decimal {
        negative: false,
        exponent: (i16::from(exponent) - 0x40) as i8,
        digits: raised_value(places),
    };
    if !is_short(&number) {
        return None;
    }
    if Digits::of(number.digits).as_slice().len() != places.len() {
        return None;
    }
    Some(number)
}

/// The negative number that an exponent's byte and the bytes of digits stand for.
fn negative_number(exponent: u8, places: &[u8]) -> Option<Decimal>
    requires { ArePlaces places.now }
    ensures some { IfSome result (λ number. IsNegative number exponent places.now) }
    ensures none { IfNone result ((number : Decimal) → IsNegative number exponent places.now → ⊥) }
{
    if places.len() > DIGIT_LIMIT {
        return None;
    }
    if exponent < 0x2E {
        return None;
    }
    if exponent > 0x51 {
        return None;
    }
    let number = Decimal {
        negative: true,
        exponent: (0x40 - i16::from(exponent)) as i8,
        digits: lowered_value(places),
    };
    if !is_short(&number) {
        return None;
    }
    if Digits::of(number.digits).as_slice().len() != places.len() {
        return None;
    }
    Some(number)
}

/// A positive number after its tag, and what follows it.
fn take_positive(bytes: &[u8]) -> Option<(Decimal, &[u8])>
    ensures some { IfSome result (λ taken. IsDecimal taken.0 ×
        (0x30 ∷ bytes.now ≡ decimal_bytes taken.0 ++ taken.1.now)) }
    ensures none { IfNone result ((number : Decimal) (rest : List ℕ) → IsDecimal number →
        0x30 ∷ bytes.now ≢ decimal_bytes number ++ rest) }
{
    let (exponent, rest) = bytes.split_first()?;
    let (places, rest) = split_places(rest);
    let (end, rest) = rest.split_first()?;
    if *end != 0x00 {
        return None;
    }
    let number = positive_number(*exponent, places)?;
    Some((number, rest))
}

/// A negative number after its tag, and what follows it.
fn take_negative(bytes: &[u8]) -> Option<(Decimal, &[u8])>
    ensures some { IfSome result (λ taken. IsDecimal taken.0 ×
        (0x10 ∷ bytes.now ≡ decimal_bytes taken.0 ++ taken.1.now)) }
    ensures none { IfNone result ((number : Decimal) (rest : List ℕ) → IsDecimal number →
        0x10 ∷ bytes.now ≢ decimal_bytes number ++ rest) }
{
    let (exponent, rest) = bytes.split_first()?;
    let (places, rest) = split_places(rest);
    let (end, rest) = rest.split_first()?;
    if *end != 0x0B {
        return None;
    }
    let number = negative_number(*exponent, places)?;
    Some((number, rest))
}

/// A number, and what follows it.
fn take_number(bytes: &[u8]) -> Option<(Decimal, &[u8])>
    ensures some { IfSome result (λ taken. IsDecimal taken.0 ×
        (bytes.now ≡ decimal_bytes taken.0 ++ taken.1.now)) }
    ensures none { IfNone result ((number : Decimal) (rest : List ℕ) → IsDecimal number →
        bytes.now ≢ decimal_bytes number ++ rest) }
{
    let Some((tag, rest)) = bytes.split_first() else {
        return None;
    };
    if *tag == 0x10 {
        return take_negative(rest);
    }
    if *tag == 0x20 {
        return Some((Decimal::ZERO, rest));
    }
    if *tag == 0x30 {
        return take_positive(rest);
    }
    None
}

/// A subscript that is a text, after its tag, and what follows it.
fn take_text_sub(alloc: Global, bytes: &[u8]) -> Result<Option<(Sub, &[u8])>, AllocError>
    ensures some { IfOk result (λ taken. IfSome taken (λ t. IsSub t.0 ×
        (0x40 ∷ bytes.now ≡ sub_bytes t.0 ++ t.1.now))) }
    ensures none { IfOk result (λ taken. IfNone taken ((text rest : List ℕ) → IsText text →
        0x40 ∷ bytes.now ≢ text_bytes text ++ rest)) }
{
    let Some((text, rest)) = take_text(alloc, bytes)? else {
        return Ok(None);
    };
    if text.is_empty() {
        return Ok(None);
    }
    if Decimal::read(text.as_slice()).is_some() {
        return Ok(None);
    }
    Ok(Some((Sub::Text(SubText::from_vec(text)), rest)))
}

/// A subscript, and what follows it.
pub fn take_sub(alloc: Global, bytes: &[u8]) -> Result<Option<(Sub, &[u8])>, AllocError>
    ensures some { IfOk result (λ taken. IfSome taken (λ t. IsSub t.0 ×
        (bytes.now ≡ sub_bytes t.0 ++ t.1.now))) }
    ensures none { IfOk result (λ taken. IfNone taken ((sub : Sub) (rest : List ℕ) → IsSub sub →
        bytes.now ≢ sub_bytes sub ++ rest)) }
{
    let Some((tag, left)) = bytes.split_first() else {
        return Ok(None);
    };
    if *tag == 0x40 {
        return take_text_sub(alloc, left);
    }
    let Some((number, rest)) = take_number(bytes) else {
        return Ok(None);
    };
    Ok(Some((Sub::Num(number), rest)))
}
