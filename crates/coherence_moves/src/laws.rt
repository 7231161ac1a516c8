ghost use Rattle.coherence_moves.specs.Laws.{MovesKeepPuts};

/// Where the invariant holds, each move keeps what was put to each session in each order coherent: the headers of its
/// messages rise, and each Block is true at its own length and until a Drop meets it. Of a move of a data server it is
/// said where the trail after it is a run.
pub fn what_was_put_stays_coherent_over_each_move()
    ensures { MovesKeepPuts }
{}
