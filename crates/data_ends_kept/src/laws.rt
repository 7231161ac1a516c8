ghost use Rattle.data_ends_kept.specs.Laws.{MovesKeepDataEnds, MovesKeepUnopened};

/// Where the invariant holds, each move keeps that no data end broke before its data server's first start.
pub fn none_broke_before_the_first_start()
    ensures { MovesKeepUnopened }
{}

/// Where the invariant holds, each move keeps the data ends of running nodes as it has them: the state of each end, the
/// round and the sessions that it awaits, and the Hellos that wait in it.
pub fn the_data_ends_are_kept()
    ensures { MovesKeepDataEnds }
{}
