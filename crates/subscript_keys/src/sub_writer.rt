ghost use Rattle.std.specs.Prelude.{◌≡◌, ◌++◌, ◌+◌, ◌-◌, ◌<◌, map, ℤ, pos, negsuc, ◌≤ℤ◌, OnOk};
ghost use Rattle.std.specs.List.{AllByRecursion};
ghost use Rattle.subscript_keys.specs.declared.limits.TheConstants.{DIGIT_LIMIT};
ghost use Rattle.subscript_keys.specs.Decimal.{plus, minus, digits, AreDigits, BeginsWith, IsDecimal, IsShort};
ghost use Rattle.subscript_keys.specs.Key.{decimal_bytes, negative_bytes, positive_bytes, escaped, text_bytes, sub_bytes, subs_bytes, HasForm};

use crate::decimal::Decimal;
use crate::digits::Digits;
use crate::sub::Sub;
use std::alloc::AllocError;

/// Appends each digit and `by` more. After an `Err` a part of them may stand there.
pub fn put_raised(to: &mut Vec<u8>, by: u8, places: &[u8]) -> Result<(), AllocError>
    requires places { AreDigits places.now }
    requires by { by < 200 }
    ensures ok { OnOk result (to.new.items ≡ to.old.items ++ map (λ d. d + by) places.now) }
    ensures front { BeginsWith to.new.items to.old.items }
{
    for place in places {
        to.push(*place + by)?;
    }
    Ok(())
}

/// Appends what each digit lacks to 10.
fn put_lowered(to: &mut Vec<u8>, places: &[u8]) -> Result<(), AllocError>
    requires { AreDigits places.now }
    ensures { OnOk result (to.new.items ≡ to.old.items ++ map (λ d. 10 - d) places.now) }
{
    for place in places {
        to.push(10 - *place)?;
    }
    Ok(())
}

/// 40 (hex) and the exponent more.
fn raised(exponent: i8) -> u8
    requires low { negsuc 16 ≤ℤ exponent }
    requires high { exponent ≤ℤ pos DIGIT_LIMIT }
    ensures { result ≡ plus 0x40 exponent }
{
    (0x40 + i16::from(exponent)) as u8
}

/// 40 (hex) and the exponent less.
fn lowered(exponent: i8) -> u8
    requires low { negsuc 16 ≤ℤ exponent }
    requires high { exponent ≤ℤ pos DIGIT_LIMIT }
    ensures { result ≡ minus 0x40 exponent }
{
    (0x40 - i16::from(exponent)) as u8
}

/// Appends a negative number's bytes.
#[tactic(auto, unfolding(crate::specs::Key::negative_bytes))]
fn put_negative(to: &mut Vec<u8>, number: &Decimal) -> Result<(), AllocError>
    requires { IsShort number.now }
    ensures { OnOk result (to.new.items ≡ to.old.items
        ++ negative_bytes number.now.exponent (digits number.now.digits)) }
{
    to.push(0x10)?;
    to.push(lowered(number.exponent))?;
    put_lowered(to, Digits::of(number.digits).as_slice())?;
    to.push(0x0B)?;
    Ok(())
}

/// Appends a positive number's bytes.
#[tactic(auto, unfolding(crate::specs::Key::positive_bytes))]
fn put_positive(to: &mut Vec<u8>, number: &Decimal) -> Result<(), AllocError>
    requires { IsShort number.now }
    ensures { OnOk result (to.new.items ≡ to.old.items
        ++ positive_bytes number.now.exponent (digits number.now.digits)) }
{
    to.push(0x30)?;
    to.push(raised(number.exponent))?;
    put_raised(to, 1, Digits::of(number.digits).as_slice())?;
    to.push(0x00)?;
    Ok(())
}

/// Appends a number's bytes.
#[tactic(auto, unfolding(crate::specs::Key::decimal_bytes))]
fn put_decimal(to: &mut Vec<u8>, number: &Decimal) -> Result<(), AllocError>
    requires { IsDecimal number.now }
    ensures { OnOk result (to.new.items ≡ to.old.items ++ decimal_bytes number.now) }
{
    if number.digits == 0 {
        to.push(0x20)?;
        return Ok(());
    }
    if number.negative {
        return put_negative(to, number);
    }
    put_positive(to, number)
}

/// Appends a text's bytes.
#[tactic(auto, unfolding(crate::specs::Key::text_bytes))]
fn put_text(to: &mut Vec<u8>, text: &[u8]) -> Result<(), AllocError>
    ensures { OnOk result (to.new.items ≡ to.old.items ++ text_bytes text.now) }
{
    to.push(0x40)?;
    for byte in text {
        to.push(*byte)?;
        if *byte == 0x00 {
            to.push(0xFF)?;
        }
    }
    to.push(0x00)?;
    to.push(0x01)?;
    Ok(())
}

/// Appends a subscript's bytes. After an `Err` a part of them may stand there.
pub fn put_sub(to: &mut Vec<u8>, sub: &Sub) -> Result<(), AllocError>
    requires { HasForm sub.now }
    ensures { OnOk result (to.new.items ≡ to.old.items ++ sub_bytes sub.now) }
{
    match sub {
        Sub::Num(number) => put_decimal(to, number),
        Sub::Text(text) => put_text(to, text.as_slice()),
    }
}

/// Appends the bytes of subscripts.
pub fn put_subs(to: &mut Vec<u8>, subs: &[Sub]) -> Result<(), AllocError>
    requires { AllByRecursion HasForm subs.now }
    ensures { OnOk result (to.new.items ≡ to.old.items ++ subs_bytes subs.now) }
{
    for sub in subs {
        put_sub(to, sub)?;
    }
    Ok(())
}
