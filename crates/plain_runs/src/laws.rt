ghost use Rattle.plain_runs.specs.Conditions.{FailureRefuses, FailureRefusesBehind, NoneIsLeftOut, NoneIsLeftOutBehind};
ghost use Rattle.plain_runs.specs.Together.{AllInOrderAreTold, AnsweredIsTold, BarredDidNothing, MetOnce, NoLaterEpoch, NoneWithoutSession, OnlyAddsSum, OpenIsLive, StrangersAreToldNothing, StrangersDidNothing};
ghost use Rattle.plain_runs.specs.Laws.{EachIsOrdered, Extended, Framed, ItemsInOrder, ItemsWereIssued, NeighboursAgree, NoConflict, SeenIsTold, SeenNeverFalls, Settled, SyncedStays};

/// A run goes on with an act that may come.
pub fn a_run_goes_on()
    ensures { Extended }
{}

/// An act leaves each server that it doesn't name.
pub fn an_act_leaves_the_other_servers()
    ensures { Framed }
{}

/// What a job has seen falls only by a `told` or a `met`.
pub fn what_is_seen_never_falls()
    ensures { SeenNeverFalls }
{}

/// Each order but the first keeps a front of the one before.
pub fn neighbouring_orders_agree()
    ensures { NeighboursAgree }
{}

/// Each order is an ordered list.
pub fn each_order_is_ordered()
    ensures { EachIsOrdered }
{}

/// What was synced stands at its position in each order from then on.
pub fn what_is_synced_stays()
    ensures { SyncedStays }
{}

/// A session's items stand in the order of their running numbers, each once.
pub fn items_stand_in_order()
    ensures { ItemsInOrder }
{}

/// No two holds that bind, of different holders, conflict.
pub fn no_two_holds_conflict()
    ensures { NoConflict }
{}

/// While no round is due, each hold that was answered or given up and no longer binds is handed over.
pub fn what_no_longer_binds_is_handed_over()
    ensures { Settled }
{}

/// Each item of a session that was met stands in the order as it was issued with its number.
pub fn items_stand_as_they_were_issued()
    ensures { ItemsWereIssued }
{}

/// What a job has seen is within the order that its pair's session is told of.
pub fn what_is_seen_was_told()
    ensures { SeenIsTold }
{}

/// An act may come where all its conditions hold, and not where just one fails. The same of an entry after a list.
pub fn no_condition_is_left_out()
    ensures acts { NoneIsLeftOut }
    ensures entries { NoneIsLeftOutBehind }
    ensures refused_acts { FailureRefuses }
    ensures refused_entries { FailureRefusesBehind }
{}

/// Where a pair has no session, no act finds a hold to give up or to answer, an item to answer, an update to end,
/// or a Close to lose the session by.
pub fn nothing_is_there_without_a_session()
    ensures { NoneWithoutSession }
{}

/// In its pair's session a job that isn't there has no answered hold to give up, no item at a place of the told order,
/// and no update. It is refused nothing but that it has no transaction.
pub fn a_job_that_is_not_there_did_nothing()
    ensures did { StrangersDidNothing }
    ensures told { StrangersAreToldNothing }
{}

/// In its pair's session a barred job has no answered hold to give up, no item at a place of the told order,
/// and no update.
pub fn a_barred_job_did_nothing()
    ensures { BarredDidNothing }
{}

/// Only an increment has a sum.
pub fn only_increments_have_sums()
    ensures { OnlyAddsSum }
{}

/// An item that is answered stands where it stands in the order also in the order that its session is told of.
pub fn what_is_answered_was_told()
    ensures answered { AnsweredIsTold }
    ensures reached { AllInOrderAreTold }
{}

/// Where the last order that an Epoch began, or order 0, isn't later than the one that a pair's session is told of,
/// it has no Epoch above that one's last.
pub fn only_a_later_order_has_a_later_epoch()
    ensures { NoLaterEpoch }
{}

/// Where the Open of a session that was met stands in the order, its pair has a session, or lost one since the Open.
pub fn a_session_is_met_once()
    ensures { MetOnce }
{}

/// In an ordered list the session of an open transaction is live.
pub fn an_open_transaction_is_of_a_live_session()
    ensures { OpenIsLive }
{}
