ghost use Rattle.link_news.specs.Laws.{InputsKeepLinks};

/// Where the invariant holds, each input of an application server keeps what is on its way between the two ends of each
/// session, what waits to be put, and what a data server has of its sessions.
pub fn inputs_keep_what_is_on_its_way()
    ensures { InputsKeepLinks }
{}
