ghost use Rattle.link_apps.specs.Laws.{CommandsKeepLinks, FramesWithoutNewsKeepLinks, NewsKeepLanes, NewsKeepOtherLinks, NewsKeepOwnWay, OtherInputsKeepLinks};

/// Where the invariant holds, each command of a job keeps what is on its way between the two ends of each session, what
/// waits to be put, and what a data server has of its sessions; and so does each input of an application server, but for
/// the Welcome of a new session or of a new epoch, after which the end that took it has just what is on its way to it,
/// and the other data servers keep it.
pub fn what_is_on_its_way_is_kept_by_application_servers()
    ensures commands { CommandsKeepLinks }
    ensures other_inputs { OtherInputsKeepLinks }
    ensures frames { FramesWithoutNewsKeepLinks }
    ensures news { NewsKeepOwnWay }
    ensures news_beside { NewsKeepOtherLinks }
    ensures news_lanes { NewsKeepLanes }
{}
