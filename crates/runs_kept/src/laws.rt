ghost use Rattle.runs_kept.specs.Laws.{StepsKeepRuns};

/// Where the invariant holds, the trail stays a run as a data server steps, if those of its acts may come that rest on
/// items, locks and answers: Opens, Closes, saves and breaks may.
pub fn the_trail_stays_a_run_over_steps()
    ensures { StepsKeepRuns }
{}
