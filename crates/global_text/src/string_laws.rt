ghost use Rattle.std.specs.Prelude.{◌≡◌, ◌≢◌, ◌==◌, ◌≤◌, ◌++◌, [], ℕ, List, length, codes};
ghost use Rattle.subscript_keys.specs.declared.limits.TheConstants.{VALUE_LIMIT};
ghost use Rattle.subscript_keys.specs.Key.{AreBytes};
ghost use Rattle.global_text.specs.declared.text_error.TextError.{TextError};
ghost use Rattle.global_text.specs.Numbers.{BeginsOtherwise, is_number_byte};
ghost use Rattle.global_text.specs.Strings.{ReadsString};
ghost use Rattle.global_text.specs.Faults.{HasValueFault, IsMemory, AreOne};
ghost use Rattle.global_text.specs.Printed.{IsPrinted};

/// Reading is one: a text begins with one string at most, by a spelling of that string; where it begins with a
/// value, no refusal of values but out of memory holds for it, and else one refusal at most.
pub fn values_are_read_in_one_way()
    ensures one { (s t text rest behind : List ℕ) → ReadsString s text rest →
        ReadsString t text behind → (s ≡ t) × (rest ≡ behind) }
    ensures spelled { (s text rest : List ℕ) → ReadsString s text rest →
        (spelled : List ℕ) × (text ≡ spelled ++ rest) × ReadsString s spelled [] }
    ensures read { (s text rest : List ℕ) (error : TextError) → ReadsString s text rest →
        length s ≤ VALUE_LIMIT → HasValueFault text error → IsMemory error }
    ensures refused { (text : List ℕ) (error other : TextError) → HasValueFault text error →
        HasValueFault text other → AreOne error other }
{}

/// Printing is one, and what is printed is read back, where neither a quote nor a byte of a number follows.
pub fn printed_values_are_read()
    ensures one { (s text other : List ℕ) → IsPrinted s text → IsPrinted s other → text ≡ other }
    ensures read { (s text rest : List ℕ) → IsPrinted s text → AreBytes s →
        BeginsOtherwise (λ b. b == 34) rest → BeginsOtherwise is_number_byte rest →
        ReadsString s (text ++ rest) rest }
    ensures never_none { (s text : List ℕ) → IsPrinted s text → text ≢ codes "none" }
{}
