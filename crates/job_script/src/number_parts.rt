//! Numbers among the parts of a line.
ghost use Rattle.std.specs.Prelude.{◌≡◌, ◌≢◌, ◌↔◌, ℕ, ◌<◌, ◌≤◌, ◌^◌, ◌⊎◌, [], ℤ, unsigned_abs, IsTrue, IfOk, IfErr, IfSome, IfNone};
ghost use Rattle.std.specs.Fmt.{decimal, signed_decimal};
ghost use Rattle.std.specs.Int.Signed.{mag};
ghost use Rattle.subscript_keys.specs.declared.limits.TheConstants.{NUMBER_LIMIT};
ghost use Rattle.job_script.specs.Words.{IsAhead};
ghost use Rattle.job_script.specs.Refusals.{RefusesNumber, RefusesPick, RefusesAmount};

use crate::line_fault::LineFault;
use crate::line_kind::LineKind;
use crate::splits::{is_same, split_word};
use itoa::Buffer;
use std::str;
use subscript_keys::NUMBER_LIMIT;

/// Whether a word is this number's text.
fn is_text_of(word: &[u8], number: u64) -> bool
    ensures { IsTrue result ↔ (word.now ≡ decimal number) }
{
    let mut buffer = Buffer::new();
    is_same(word, buffer.format(number).as_bytes())
}

/// The number that a word spells, without a sign or a 0 in front.
fn number_of(word: &[u8]) -> Option<u64>
    ensures some { IfSome result (λ n. (word.now ≡ decimal n) × (n < 2 ^ 64)) }
    ensures none { IfNone result ((n : ℕ) → n < 2 ^ 64 → word.now ≢ decimal n) }
{
    let Ok(text) = str::from_utf8(word) else {
        return None;
    };
    let Ok(number) = text.parse::<u64>() else {
        return None;
    };
    if is_text_of(word, number) {
        Some(number)
    } else {
        None
    }
}

/// The number, maybe after a minus, that a word spells, without a 0 in front.
fn signed_number_of(word: &[u8]) -> Option<i64>
    ensures some { IfSome result (λ z. (word.now ≡ signed_decimal z) × (mag z < 2 ^ 63)) }
    ensures none { IfNone result ((z : ℤ) → unsigned_abs z < NUMBER_LIMIT → word.now ≢ signed_decimal z) }
{
    let Ok(text) = str::from_utf8(word) else {
        return None;
    };
    let Ok(amount) = text.parse::<i64>() else {
        return None;
    };
    let mut buffer = Buffer::new();
    if is_same(word, buffer.format(amount).as_bytes()) {
        Some(amount)
    } else {
        None
    }
}

/// A number between these, and what follows it.
pub fn take_number(text: &[u8], least: u64, most: u64) -> Result<(u64, &[u8]), LineFault>
    ensures ok { IfOk result (λ got. IsAhead (decimal got.0) text.now got.1.now × (least ≤ got.0) × (got.0 ≤ most)) }
    ensures err { IfErr result (RefusesNumber least most text.now) }
{
    if text.is_empty() {
        return Err(LineFault::Bad(LineKind::Words));
    }
    let (word, rest) = split_word(text);
    let Some(number) = number_of(word) else {
        return Err(LineFault::Bad(LineKind::Number));
    };
    if number < least {
        return Err(LineFault::Bad(LineKind::Number));
    }
    if most < number {
        return Err(LineFault::Bad(LineKind::Number));
    }
    Ok((number, rest))
}

/// A pick, and what follows it; 0 where the line ends.
pub fn take_pick(text: &[u8]) -> Result<(u64, &[u8]), LineFault>
    ensures ok { IfOk result (λ got. ((text.now ≡ []) × (got.1.now ≡ []) × (got.0 ≡ 0)) ⊎ (IsAhead (decimal got.0) text.now got.1.now × (got.0 < 2 ^ 64))) }
    ensures err { IfErr result (RefusesPick text.now) }
{
    if text.is_empty() {
        return Ok((0, text));
    }
    let (word, rest) = split_word(text);
    let Some(number) = number_of(word) else {
        return Err(LineFault::Bad(LineKind::Number));
    };
    Ok((number, rest))
}

/// An increment's amount of at most `DIGIT_LIMIT` digits, and what follows it.
pub fn take_amount(text: &[u8]) -> Result<(i64, &[u8]), LineFault>
    ensures ok { IfOk result (λ got. IsAhead (signed_decimal got.0) text.now got.1.now × (unsigned_abs got.0 < NUMBER_LIMIT)) }
    ensures err { IfErr result (RefusesAmount text.now) }
{
    if text.is_empty() {
        return Err(LineFault::Bad(LineKind::Words));
    }
    let (word, rest) = split_word(text);
    let Some(amount) = signed_number_of(word) else {
        return Err(LineFault::Bad(LineKind::Number));
    };
    if amount.unsigned_abs() >= NUMBER_LIMIT {
        return Err(LineFault::Bad(LineKind::Number));
    }
    Ok((amount, rest))
}
