ghost use Rattle.dials_frames.specs.Laws.{InputsKeepDials};

/// Where the invariant holds, each input of an application server keeps the connections of each pair.
pub fn inputs_keep_the_connections()
    ensures inputs { InputsKeepDials }
{}
