//! How many bytes a subscript takes in a key.
ghost use Rattle.std.specs.Prelude.{◌≡◌, ◌≤◌, ◌+◌, ◌*◌, length};
ghost use Rattle.subscript_keys.specs.declared.limits.TheConstants.{KEY_LIMIT};
ghost use Rattle.subscript_keys.specs.declared.sub.Sub.TheVariants.{Text};
ghost use Rattle.subscript_keys.specs.Decimal.{digits};
ghost use Rattle.subscript_keys.specs.Key.{decimal_bytes, text_bytes};
ghost use Rattle.global_text.specs.Nodes.{sub_string, sub_size};

use subscript_keys::{Decimal, Sub};

/// How many decimal digits a number has; 0 has none.
fn digit_count(number: u64) -> usize
    ensures value { result ≡ length (digits number) }
    ensures within { result ≤ 20 }
{
    let mut count = 0;
    let mut rest = number;
    while rest > 0 {
        rest /= 10;
        count += 1;
    }
    count
}

/// How many bytes a number takes in a key.
fn number_length(number: &Decimal) -> usize
    ensures value { result ≡ length (decimal_bytes number.now) }
    ensures within { result ≤ 23 }
{
    if number.digits == 0 {
        return 1;
    }
    3 + digit_count(number.digits)
}

/// How many bytes a text takes in a key; a zero byte takes two.
pub fn text_length(text: &[u8]) -> usize
    requires { length text.now ≤ KEY_LIMIT }
    ensures value { result ≡ length (text_bytes text.now) }
    ensures within { result ≤ 2 * KEY_LIMIT + 3 }
{
    let mut count = 3;
    for byte in text {
        count += if *byte == 0x00 { 2 } else { 1 };
    }
    count
}

/// How many bytes of a key's limit a text takes; the empty one stands in no key.
fn text_size(text: &[u8]) -> usize
    requires { length text.now ≤ KEY_LIMIT }
    ensures value { result ≡ sub_size (Text text.now) }
    ensures within { result ≤ 2 * KEY_LIMIT + 3 }
{
    match text {
        [] => 0,
        _ => text_length(text),
    }
}

/// How many bytes of a key's limit a subscript takes.
pub fn sub_length(sub: &Sub) -> usize
    requires { length (sub_string sub.now) ≤ KEY_LIMIT }
    ensures value { result ≡ sub_size sub.now }
    ensures within { result ≤ 2 * KEY_LIMIT + 3 }
{
    match sub {
        Sub::Num(number) => number_length(number),
        Sub::Text(text) => text_size(text.as_slice()),
    }
}
