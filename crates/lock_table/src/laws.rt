ghost use Rattle.std.specs.Prelude.{ℕ, List};
ghost use Rattle.lock_table.specs.declared.rows.Hold.{Hold};
ghost use Rattle.lock_table.specs.LockWords.{Locks};
ghost use Rattle.lock_table.specs.LockLaws.{AreApart, KeepsApart, KeepsOthers, PassesOn};

/// Where no two holds of different holders conflict, none do after any call.
pub fn keeps_apart()
    ensures { (l : Locks) → AreApart l.holds → KeepsApart l }
{}

/// What no call names stays. Of the waiting requests a pass grants some and leaves the others, all in their order;
/// counts rise by its grants alone, and granted tickets stay. What else changes counts leaves those of other holders,
/// names and modes.
pub fn keeps_others()
    ensures pass { (l : Locks) (at : ℕ) → PassesOn l at }
    ensures counts { (holds : List Hold) → KeepsOthers holds }
{}
