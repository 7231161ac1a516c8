ghost use Rattle.std.specs.Prelude.{◌≡◌, ◌++◌, replicate, OnOk, OnErr};
ghost use Rattle.subscript_keys.specs.Decimal.{digits, whole_digits, fraction_digits, digit_text, fraction_text, decimal_text, BeginsWith, IsDecimal, IsShort, IsNumberText};

use crate::decimal::Decimal;
use crate::digits::Digits;
use crate::sub_writer::put_raised;
use std::alloc::AllocError;

/// Appends so many characters 0.
fn put_zeros(to: &mut Vec<u8>, count: usize) -> Result<(), AllocError>
    ensures ok { OnOk result (to.new.items ≡ to.old.items ++ digit_text (replicate count 0)) }
    ensures front { BeginsWith to.new.items to.old.items }
{
    for _zero in 0..count {
        to.push(b'0')?;
    }
    Ok(())
}

/// Appends the digits before the point, the point and the digits after it.
fn put_digits(to: &mut Vec<u8>, number: &Decimal) -> Result<(), AllocError>
    requires { IsShort number.now }
    ensures ok { OnOk result (to.new.items ≡ to.old.items
        ++ digit_text (whole_digits (digits number.now.digits) number.now.exponent)
        ++ fraction_text (fraction_digits (digits number.now.digits) number.now.exponent)) }
    ensures front { BeginsWith to.new.items to.old.items }
{
    let digits = Digits::of(number.digits);
    let digits = digits.as_slice();
    let places = usize::from(number.exponent.unsigned_abs());
    if number.exponent <= 0 {
        to.push(b'.')?;
        put_zeros(to, places)?;
        return put_raised(to, b'0', digits);
    }
    if digits.len() <= places {
        put_raised(to, b'0', digits)?;
        return put_zeros(to, places - digits.len());
    }
    let (whole, fraction) = digits.split_at(places);
    put_raised(to, b'0', whole)?;
    to.push(b'.')?;
    put_raised(to, b'0', fraction)
}

/// Appends a number's canonical text. After an `Err` a part of it may stand there.
#[tactic(auto, unfolding(crate::specs::Decimal::decimal_text))]
fn put_number(to: &mut Vec<u8>, number: &Decimal) -> Result<(), AllocError>
    requires { IsDecimal number.now }
    ensures ok { OnOk result (to.new.items ≡ to.old.items ++ decimal_text number.now) }
    ensures front { BeginsWith to.new.items to.old.items }
{
    if number.digits == 0 {
        to.push(b'0')?;
        return Ok(());
    }
    if number.negative {
        to.push(b'-')?;
        return put_digits(to, number);
    }
    put_digits(to, number)
}

impl Decimal {
    /// Appends the number's one canonical text.
    #[tactic(auto, using(crate::proofs::NumberTexts::text_is_canonical))]
    pub fn write(&self, to: &mut Vec<u8>) -> Result<(), AllocError>
        requires { IsDecimal self.now }
        ensures ok { OnOk result (to.new.items ≡ to.old.items ++ decimal_text self.now) }
        ensures err { OnErr result (to.new.items ≡ to.old.items) }
        ensures canonical { IsNumberText (decimal_text self.now) }
    {
        let length = to.len();
        if let Err(error) = put_number(to, self) {
            to.truncate(length);
            return Err(error);
        }
        Ok(())
    }
}
