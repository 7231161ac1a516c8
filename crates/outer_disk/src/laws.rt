//! Laws of disks. Each is a function with an empty body.
ghost use Rattle.outer_disk.specs.Stops.{StopLasts};

/// A disk in memory that is made to stop at a write goes on up to it; that write fails, and so does each call
/// after it, until a crash.
pub fn a_stop_lasts()
    ensures { StopLasts }
{}
