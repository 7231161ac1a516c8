ghost use Rattle.dials_firsts.specs.Laws.{FirstsKeepDials, MovesKeepDials};

/// Where the invariant holds, the first frame that a data server takes on a connection keeps the connections of each pair, where the
/// trail stays a run.
pub fn first_frames_keep_the_connections()
    ensures { FirstsKeepDials }
{}

/// Where the invariant holds, each move keeps the connections of each pair, where the trail stays a run: which were made and left, what was
/// put first on each and in which order it was taken, what each session learnt on which of them, and what a running data server has of them.
pub fn the_connections_stay()
    ensures { MovesKeepDials }
{}
