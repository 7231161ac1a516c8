ghost use Rattle.dials_server.specs.Laws.{AcceptsKeepDials, EndingsKeepDials, FramesKeepDials, SavesKeepDials, ServerTicksKeepDials};

/// Where the invariant holds, these steps of a data server keep the connections of each pair, where the trail stays a run.
pub fn steps_keep_the_connections()
    ensures accepts { AcceptsKeepDials }
    ensures endings { EndingsKeepDials }
    ensures ticks { ServerTicksKeepDials }
    ensures saves { SavesKeepDials }
    ensures frames { FramesKeepDials }
{}
