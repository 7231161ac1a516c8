ghost use Rattle.std.specs.Prelude.{◌↔◌, ◌≤◌, ℕ, List, count_by};
ghost use Rattle.std.specs.Char.{is_ascii_digit};
ghost use Rattle.subscript_keys.specs.declared.limits.TheConstants.{DIGIT_LIMIT};
ghost use Rattle.subscript_keys.specs.Decimal.{IsNumberText};
ghost use Rattle.global_text.specs.Numbers.{IsNumber};

/// A canonical number of any length that has at most `DIGIT_LIMIT` digits is a canonical number as keys
/// have them, and the other way round.
pub fn canonical_numbers_agree()
    ensures { (text : List ℕ) →
        IsNumberText text ↔ (IsNumber text × (count_by is_ascii_digit text ≤ DIGIT_LIMIT)) }
{}
