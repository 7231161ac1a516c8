ghost use Rattle.link_states.specs.Laws.{LostForACause, ClosedWhenOver};

/// An application server's end loses its session only at a tick when its time to recover is over, or by a Reset
/// while it recovers.
pub fn a_session_is_lost_for_a_cause()
    ensures { LostForACause }
{}

/// A tick leaves a data server's end free exactly where it was free, or its trouble's or its round's time is over.
pub fn a_tick_closes_when_its_time_is_over()
    ensures { ClosedWhenOver }
{}
