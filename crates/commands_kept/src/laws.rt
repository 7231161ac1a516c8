ghost use Rattle.commands_kept.specs.Laws.{DeathsKeepCommands, HaltsKeepCommands, InputsKeepCommands, JobsKeepCommands, LooksKeepCommands, StartsKeepCommands, StepsKeepCommands, TicksKeepCommands};

/// Where the invariant holds, each step of a data server, each start and halt of one, each input of an application server, each step
/// of a job's command, ticks, looks and deaths keep which commands the requests of application ends are of.
pub fn commands_are_kept()
    ensures steps { StepsKeepCommands }
    ensures starts { StartsKeepCommands }
    ensures halts { HaltsKeepCommands }
    ensures deaths { DeathsKeepCommands }
    ensures looks { LooksKeepCommands }
    ensures ticks { TicksKeepCommands }
    ensures jobs { JobsKeepCommands }
    ensures inputs { InputsKeepCommands }
{}
