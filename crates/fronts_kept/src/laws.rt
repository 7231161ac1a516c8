ghost use Rattle.fronts_kept.specs.CacheLaws.{CachedRunsAreTrue, PublishedRunsAreTrue};
ghost use Rattle.fronts_kept.specs.Laws.{MovesKeepFronts};

/// Where the invariant holds, each move keeps the fronts and runs of the application ends, and what they publish: a front is the
/// header of the last message that was taken, and each run came in a Block and was met by no Drop since.
pub fn fronts_are_kept()
    ensures { MovesKeepFronts }
{}

/// Where the invariant holds, each run that a living application server has cached is true at its session's front: it
/// has just the pairs that so much of the data server's order leaves in its span; and each that it publishes, at the front
/// that it publishes with it.
pub fn cached_runs_are_true()
    ensures cached { CachedRunsAreTrue }
    ensures published { PublishedRunsAreTrue }
{}
