ghost use Rattle.link_kept.specs.Laws.{DeathsKeepLinks, HaltsKeepLinks, LooksKeepLinks, StartsKeepLinks, TicksKeepLinks};

/// Where the invariant holds, ticks, looks, deaths, halts and starts keep what is on its way between the two ends of each
/// session, what waits to be put, and what a data server has of its sessions.
pub fn what_is_on_its_way_is_kept()
    ensures ticks { TicksKeepLinks }
    ensures looks { LooksKeepLinks }
    ensures deaths { DeathsKeepLinks }
    ensures halts { HaltsKeepLinks }
    ensures starts { StartsKeepLinks }
{}
