ghost use Rattle.data_rules.specs.Laws.{DownsAgainAreFirsts, FetchFindsRun, FetchIsDetermined, FirstIsAnswered, SessionWindowsAgree, StepIsDetermined, StepIsThere};

/// But for a Fetch, the state, the moment and the input determine what a step makes.
pub fn a_step_is_determined()
    ensures { StepIsDetermined }
{}

/// What a Fetch makes is determined by the run that answers it.
pub fn a_fetch_is_determined_by_its_run()
    ensures { FetchIsDetermined }
{}

/// The window of a session is the window that keeps the bodies of its messages.
pub fn a_session_window_keeps_what_its_bodies_do()
    ensures { SessionWindowsAgree }
{}

/// A first frame on a connection is taken or refused, whatever it says.
pub fn a_first_frame_is_answered()
    ensures { FirstIsAnswered }
{}

/// Each key below the byte FF has a run that covers it, is true of the whole of an ordered list, and fits a block.
pub fn a_fetch_finds_its_run()
    ensures { FetchFindsRun }
{}

/// An input that may come has an outcome; a Fetch has one where the order is an ordered list.
pub fn a_step_is_there()
    ensures { StepIsThere }
{}

/// What a session is sent again are messages that were put to it, each with its first number.
pub fn what_is_sent_again_was_sent()
    ensures { DownsAgainAreFirsts }
{}
