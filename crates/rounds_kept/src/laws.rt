ghost use Rattle.rounds_kept.specs.Laws.{DeathsKeepRounds, HaltsKeepRounds, LooksKeepRounds, StartsKeepRounds, TicksKeepRounds};

/// Ticks, looks, deaths, halts and starts keep what rounds put: to each session Normal once and as it awaits it, and from each what it sends again.
pub fn rounds_are_kept()
    ensures ticks { TicksKeepRounds }
    ensures looks { LooksKeepRounds }
    ensures deaths { DeathsKeepRounds }
    ensures halts { HaltsKeepRounds }
    ensures starts { StartsKeepRounds }
{}
