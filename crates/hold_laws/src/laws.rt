ghost use Rattle.hold_laws.specs.HoldLaws.{EachHold, EachQuit, EachServer};
ghost use Rattle.hold_laws.specs.HoldLaws.{AnsweredIsSynced, GivenIsIssued, GoneIsGiven, GoneIsOver};
ghost use Rattle.hold_laws.specs.HoldLaws.{ReleasedIsClosed, SentIsBehindOpen, TouchedIsMet};
ghost use Rattle.hold_laws.specs.HoldLaws.{QuitIsIssued, QuitIsMet, QuitsInOrder, TurnsAreBelow, TurnsDiffer, TurnsTell};
ghost use Rattle.hold_laws.specs.HoldChanges.{HoldsStay, OthersLeaveHolds, OthersStay};

/// The session of a hold that was answered or given up was met. The number of an answered one is synced, that of a sent one
/// is within the order and behind its session's Open, and what was issued before one was given up was issued.
pub fn each_hold_fits_its_session()
    ensures met { EachHold TouchedIsMet }
    ensures synced { EachHold AnsweredIsSynced }
    ensures sent { EachHold SentIsBehindOpen }
    ensures before { EachHold GivenIsIssued }
{}

/// Where a hold is there and no longer in force, a Close of its session is synced. One that is gone was given up, or never
/// answered. While no round is due, a Close of its session is synced where it was answered or given up, or all that its job had
/// issued in its session before stands in the order.
pub fn what_ended_is_over()
    ensures released { EachHold ReleasedIsClosed }
    ensures given { EachHold GoneIsGiven }
    ensures gone { EachHold GoneIsOver }
{}

/// The session of a request that was given up before it was granted was met, and what was issued before was issued.
pub fn each_quit_fits_its_session()
    ensures met { EachQuit QuitIsMet }
    ensures before { EachQuit QuitIsIssued }
{}

/// No two holds or requests were given up at the same turn, and none at one that didn't come yet; the requests stand in the
/// order of their turns.
pub fn no_two_turns_are_the_same()
    ensures differ { EachServer TurnsDiffer }
    ensures tell { EachServer TurnsTell }
    ensures below { EachServer TurnsAreBelow }
    ensures ordered { EachServer QuitsInOrder }
{}

/// A hold keeps its place, its holder, lock and number, and what was once so of it stays: that it was answered, given up,
/// no longer in force or gone.
pub fn a_hold_keeps_its_place()
    ensures { HoldsStay }
{}

/// Only a grant and what answers, gives up, frees or releases changes holds, and a crash and the end of a round; and each of
/// them leaves the holds that aren't its own.
pub fn other_acts_leave_holds()
    ensures acts { OthersLeaveHolds }
    ensures holds { OthersStay }
{}
