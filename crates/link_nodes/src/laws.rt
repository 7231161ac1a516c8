ghost use Rattle.link_nodes.specs.Laws.{StepsKeepNodes, StepsKeepReplies, StepsKeepServed};

/// Where the invariant holds, after each step of a data server what was taken of each lane was put, its windows are as the
/// lanes, and what it has of its sessions is of live ones that learnt of the order.
pub fn what_a_node_has_of_its_sessions_is_kept()
    ensures { StepsKeepServed }
{}

/// Where the invariant holds and the trail stays a run, each step of a data server keeps the replies that wait: each rests on
/// what isn't synced yet, and is for a connection or a session that may be told it, at most one for each connection.
pub fn the_replies_that_wait_are_kept()
    ensures { StepsKeepReplies }
{}

/// Where the invariant holds and the trail stays a run, each step of a data server keeps, of what is on its way, the half of
/// each running node: its lanes and windows, what comes upwards on the connections of its sessions, the sessions that were
/// entered for greeting application servers, the replies that wait, and what it has of its sessions.
pub fn what_is_on_its_way_at_a_node_is_kept()
    ensures { StepsKeepNodes }
{}
