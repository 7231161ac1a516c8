use crate::declaration::Declaration;
use crate::todo::Todo;

/// What a line of a script is.
#[derive(Debug, Drop)]
pub enum Line {
    /// An empty line, or a comment.
    Nothing,
    Declares(Declaration),
    Asks(Todo),
}
