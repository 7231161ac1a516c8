ghost use Rattle.std.specs.Prelude.{ℕ, List};
ghost use Rattle.recovery_round.specs.RoundWords.{Round};
ghost use Rattle.recovery_round.specs.Laws.{CountsEach};

/// The law of rounds, over all of them: whatever sessions are done or closed, one after another, the round awaits those
/// others that it awaited, and it is over exactly where each that it awaited is among them.
pub fn round_counts_each_session()
    ensures { (r : Round) (named : List ℕ) → CountsEach r named }
{}
