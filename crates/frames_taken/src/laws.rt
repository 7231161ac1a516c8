ghost use Rattle.frames_taken.specs.Laws.{DownsComeInOrder, NoFrameIsStray, UpsComeInOrder};

/// Where the invariant holds, an application server ends no connection for what came on it: no frame leaves a gap, acknowledges what
/// wasn't sent, is malformed, or falls behind the front. A Reset loses the session that it names.
pub fn no_frame_is_stray()
    ensures { NoFrameIsStray }
{}

/// Where the invariant holds, each numbered message that an end takes is the next one that was put: what was taken is a front of
/// what was put, in each session, order and direction, over any breaks.
pub fn messages_come_in_order()
    ensures down { DownsComeInOrder }
    ensures up { UpsComeInOrder }
{}
