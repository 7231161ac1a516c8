ghost use Rattle.windows_kept.specs.Laws.{MovesKeepWindows};

/// Where the invariant holds, each move keeps a window of each live session whose Welcome was put in the current order.
pub fn windows_are_kept()
    ensures { MovesKeepWindows }
{}
