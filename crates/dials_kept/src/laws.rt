ghost use Rattle.dials_kept.specs.Laws.{AppTicksKeepDials, BreaksKeepDials, CommandsKeepDials, ConnectsKeepDials, DeathsKeepDials, FailuresKeepDials, HaltsKeepDials, JoinsKeepDials, LooksKeepDials, StartsKeepDials, TicksKeepDials};

/// Where the invariant holds, these moves keep the connections of each pair: which were made and left, what was put first
/// on each and in which order it was taken, what each session learnt on which of them, and what a running data server has
/// of them.
pub fn the_connections_are_kept()
    ensures ticks { TicksKeepDials }
    ensures looks { LooksKeepDials }
    ensures deaths { DeathsKeepDials }
    ensures halts { HaltsKeepDials }
    ensures starts { StartsKeepDials }
    ensures commands { CommandsKeepDials }
    ensures failures { FailuresKeepDials }
    ensures breaks { BreaksKeepDials }
    ensures joins { JoinsKeepDials }
    ensures app_ticks { AppTicksKeepDials }
    ensures connects { ConnectsKeepDials }
{}
