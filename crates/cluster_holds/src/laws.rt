ghost use Rattle.cluster_holds.specs.Laws.{MovesKeepHolds, HoldsWhereReached};

/// Each move keeps the invariant, where the trail before it and after it is a run; so it holds in each state that some list of
/// allowed moves leads to, where its trail is a run.
pub fn the_invariant_holds_in_each_state()
    ensures moves { MovesKeepHolds }
    ensures reached { HoldsWhereReached }
{}
