ghost use Rattle.ends_kept.specs.Laws.{CommandsKeepTables, DeathsKeepRuns, HaltsKeepRuns, InputsKeepRuns, InputsKeepTables, MovesKeepOrders, StartsKeepRuns, TicksKeepRuns};

/// Where the invariant holds, the trail stays a run as an application server takes an input, that is breaks, mendings,
/// losses, and what Welcomes tell, and as a data server starts; and in any case as one halts, as an application server
/// goes, and at a tick.
pub fn the_trail_stays_a_run()
    ensures inputs { InputsKeepRuns }
    ensures starts { StartsKeepRuns }
    ensures halts { HaltsKeepRuns }
    ensures deaths { DeathsKeepRuns }
    ensures ticks { TicksKeepRuns }
{}

/// Where the invariant holds, the tables of the application ends stay those of the plain pairs: session, break, and how
/// far the connection is.
pub fn the_tables_are_kept()
    ensures inputs { InputsKeepTables }
    ensures commands { CommandsKeepTables }
{}

/// Where the invariant holds, each move keeps the orders: each data server's node and disk have the plain machine's
/// order, and as much of it is synced, but for the first Epoch before a save.
pub fn the_orders_are_kept()
    ensures { MovesKeepOrders }
{}
