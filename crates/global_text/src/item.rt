//! The items of quoted strings.
ghost use Rattle.std.specs.Prelude.{◌≡◌, ◌≢◌, ◌++◌, ◌∷◌, ℕ, ◌<◌, ◌/◌, ◌%◌, List, IfSome, IfNone};
ghost use Rattle.global_text.specs.Strings.{hex_digit, IsItem, NoItem};

/// The number of a hexadecimal digit in lower case.
fn hex_number(digit: u8) -> Option<u8>
    ensures some { IfSome result (λ number. (number < 16) × (digit ≡ hex_digit number)) }
    ensures none { IfNone result ((number : ℕ) → number < 16 → digit ≢ hex_digit number) }
{
    match digit {
        b'0'..=b'9' => Some(digit - b'0'),
        b'a'..=b'f' => Some(digit - b'a' + 10),
        _ => None,
    }
}

/// The byte that an item after its backslash stands for, and what follows the item.
fn take_escape(text: &[u8]) -> Option<(u8, &[u8])>
    ensures some { IfSome result (λ taken.
        (item : List ℕ) × IsItem taken.0 item × (92 ∷ text.now ≡ item ++ taken.1.now)) }
    ensures none { IfNone result (NoItem (92 ∷ text.now)) }
{
    let (first, after) = text.split_first()?;
    if *first == b'\\' {
        return Some((b'\\', after));
    }
    let high = hex_number(*first)?;
    let (second, rest) = after.split_first()?;
    let low = hex_number(*second)?;
    Some((high * 16 + low, rest))
}

/// The byte that the first item stands for, and what follows the item.
pub fn take_item(text: &[u8]) -> Option<(u8, &[u8])>
    ensures some { IfSome result (λ taken.
        (item : List ℕ) × IsItem taken.0 item × (text.now ≡ item ++ taken.1.now)) }
    ensures none { IfNone result (NoItem text.now) }
{
    let (first, after) = text.split_first()?;
    match *first {
        b'\\' => take_escape(after),
        b'\n' => None,
        b'"' => {
            let (second, rest) = after.split_first()?;
            if *second == b'"' {
                Some((b'"', rest))
            } else {
                None
            }
        }
        byte => Some((byte, after)),
    }
}
