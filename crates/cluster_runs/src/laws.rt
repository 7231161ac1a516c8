ghost use Rattle.cluster_runs.specs.Reached.{QuietLeaves};
ghost use Rattle.cluster_runs.specs.Laws.{BeginChangesOne, BeginIsReached, EachMayStart, HaltChangesOne, NoneHaltsFirst, NoneStepsFirst, StepChangesOne, TickReaches};
ghost use Rattle.cluster_runs.specs.Decided.{EachIsDecided};

/// A step of a data server changes the site of no other.
pub fn a_server_changes_one_site()
    ensures step { StepChangesOne }
    ensures begin { BeginChangesOne }
    ensures halt { HaltChangesOne }
{}

/// What programs keep before any move is reached.
pub fn the_beginning_is_reached()
    ensures { BeginIsReached }
{}

/// Each data server may start before any other move, and makes no step and no halt until it does.
pub fn each_server_may_start()
    ensures may { EachMayStart }
    ensures no_step { NoneStepsFirst }
    ensures no_halt { NoneHaltsFirst }
{}

/// What a tick makes of a state that is reached is reached.
pub fn a_tick_leads_on()
    ensures { TickReaches }
{}

/// A move whose keys, command and frame have their forms is allowed next or it isn't.
pub fn each_move_is_allowed_or_not()
    ensures { EachIsDecided }
{}

/// Where all that is awaited has its cause and nothing is undelivered or unsaved, what a living end awaits has a cause
/// that deliveries and saves don't end.
pub fn quiet_leaves_what_stays()
    ensures { QuietLeaves }
{}
