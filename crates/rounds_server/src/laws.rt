ghost use Rattle.rounds_server.specs.Laws.{MovesKeepRounds, StepsKeepRounds};

/// Each step of a data server keeps what rounds put: Normal is put once to each session that was there before the order, and
/// each Block answers a Fetch that was taken.
pub fn rounds_are_kept_by_data_servers()
    ensures { StepsKeepRounds }
{}

/// So where the invariant holds, each move keeps what rounds put.
pub fn rounds_are_kept_by_moves()
    ensures { MovesKeepRounds }
{}
