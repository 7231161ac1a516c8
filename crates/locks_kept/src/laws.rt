ghost use Rattle.locks_kept.specs.Laws.{MovesBesideLeaveUps, MovesKeepForced, MovesKeepGrants, MovesKeepRows, OtherMovesLeaveDowns};

/// Where the invariant holds and each hold in force is of a live session, or of one whose Close isn't synced, that is so again
/// after each move that leaves the trail a run.
pub fn holds_in_force_are_of_sessions()
    ensures { MovesKeepForced }
{}

/// Where the invariant holds and what is put upwards claims one hold at least, each move keeps what the rows of each data
/// server's table of locks are: each counts one hold at least, and no two are of one lock of one holder.
pub fn rows_of_locks_are_kept()
    ensures { MovesKeepRows }
{}

/// Where the invariant holds, each move keeps what the Grants say that wait at each data server: the length of the order at
/// which they were granted.
pub fn grants_that_wait_are_kept()
    ensures { MovesKeepGrants }
{}

/// Only inputs of application servers and steps of jobs' commands change what is put upwards in a lane: so each other move
/// keeps what holds of its Asks, claims and Cancels.
pub fn ups_are_left()
    ensures { MovesBesideLeaveUps }
{}

/// Only steps of data servers change what is put downwards in a lane.
pub fn downs_are_left()
    ensures { OtherMovesLeaveDowns }
{}
