ghost use Rattle.plain_runs.specs.Laws.{ItemsInOrder, ItemsWereIssued, SeenIsTold};
ghost use Rattle.trail_laws.specs.OrderLaw.{JobsInOrder};
ghost use Rattle.trail_laws.specs.DurableLaw.{AnswersStay, EntriesStay};
ghost use Rattle.trail_laws.specs.IncrementLaw.{IncrementsDiffer};
ghost use Rattle.trail_laws.specs.LockLaw.{GrantIsTold, GrantStays, Handover, HoldIsSeen, NoLateUpdate};
ghost use Rattle.trail_laws.specs.PrefixLaw.{SeenFallsWhereCut};
ghost use Rattle.trail_laws.specs.RollbackLaw.{LeavesNoTrace};

use plain_runs::laws::what_is_seen_never_falls;

/// In each order the items of a session stand in the order of their running numbers, each once, so those of each job
/// in its own order. In the current order each item of a session that was met is what was issued with its number.
pub fn law_order()
    ensures sessions { ItemsInOrder }
    ensures jobs { JobsInOrder }
    ensures issued { ItemsWereIssued }
{}

/// An entry that is synced stands at its position in every later order. So does each commit, rollback and increment
/// that was answered.
pub fn law_durable()
    ensures entries { EntriesStay }
    ensures answers { AnswersStay }
{}

/// What a job has seen falls only by a `told` or a `met`, and there only where a restart had cut the order to less. It
/// is within the order that its pair's session is told of.
pub fn law_prefixes()
    ensures falls { SeenFallsWhereCut }
    ensures told { SeenIsTold }
{
    what_is_seen_never_falls();
}

/// Two increments of one node by positive amounts, with no other entry touching the node from the one to the other, are
/// never both answered by the same whole number. An entry touches a node also where it undoes an update there.
pub fn law_increments()
    ensures { IncrementsDiffer }
{}

/// A hold that conflicts with a later grant to another holder was gone or no longer in force before it, and either a
/// Close of its session stands in the entries of that moment, or all that its job had issued in its session before it
/// gave the hold up. Once the grant is answered these entries stand in every order from then on, and in the one that
/// the new holder's session is told of, and the new holder has seen them as long as its pair has that session.
pub fn law_handover()
    ensures handover { Handover }
    ensures stays { GrantStays }
    ensures told { GrantIsTold }
    ensures seen { HoldIsSeen }
{}

/// Nothing that a job issued in a session before it gave a hold up there enters after a conflicting grant that is
/// answered.
pub fn law_no_late()
    ensures { NoLateUpdate }
{}

/// A transaction that is ended by its Rollback or its session's Close leaves no trace: on each node that no other update
/// touches from its beginning to that end, and that no other transaction open at its beginning has touched, the map is
/// as before it began.
pub fn law_rollback()
    ensures { LeavesNoTrace }
{}
