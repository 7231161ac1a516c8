/// When a disk in memory stops, until a crash: never, at one of the writes from now on, counted from 0, or it
/// has stopped.
#[derive(Clone, Copy, PartialEq)]
pub enum Halt {
    Never,
    AtWrite(u64),
    Now,
}
