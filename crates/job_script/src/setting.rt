/// A time of the connections that a script may set.
#[derive(Clone, Copy, Debug, PartialEq, Eq)]
pub enum Setting {
    Retry,
    Trouble,
    Recover,
    Round,
}
