ghost use Rattle.asks_moves.specs.Laws.{DeathsKeepAsks, HaltsKeepAsks, InputsKeepAsks, JobsKeepAsks, LooksKeepAsks, StartsKeepAsks, StepsKeepAsks, TicksKeepAsks};

/// Where the invariant holds, each step of a data server, each start and halt of one, each input of an application server, each step
/// of a job's command, ticks, looks and deaths keep the requests for locks: those that a session put, those that wait at a data
/// server, and those that an application end waits for.
pub fn asks_are_kept()
    ensures steps { StepsKeepAsks }
    ensures starts { StartsKeepAsks }
    ensures halts { HaltsKeepAsks }
    ensures deaths { DeathsKeepAsks }
    ensures looks { LooksKeepAsks }
    ensures ticks { TicksKeepAsks }
    ensures inputs { InputsKeepAsks }
    ensures jobs { JobsKeepAsks }
{}
