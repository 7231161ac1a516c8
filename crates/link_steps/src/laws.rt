ghost use Rattle.link_steps.specs.Laws.{StepsKeepLinks};

/// Where the invariant holds and the trail stays a run, each step of a data server keeps all that is on its way at each data
/// server: the lanes, the half of a running node, and what is on its way to each living application end.
pub fn what_is_on_its_way_is_kept()
    ensures { StepsKeepLinks }
{}
