ghost use Rattle.coherence_kept.specs.Laws.{CommandsKeepPuts, DeathsKeepPuts, HaltsKeepPuts, InputsKeepPuts, LooksKeepPuts, StartsKeepPuts, TicksKeepPuts};

/// Where the invariant holds, these moves keep what was put to each session in each order coherent, and what a data server
/// has noted of it; an order that an application server learns of begins with the header of its Welcome.
pub fn what_was_put_stays_coherent()
    ensures ticks { TicksKeepPuts }
    ensures looks { LooksKeepPuts }
    ensures deaths { DeathsKeepPuts }
    ensures halts { HaltsKeepPuts }
    ensures starts { StartsKeepPuts }
    ensures commands { CommandsKeepPuts }
    ensures inputs { InputsKeepPuts }
{}
