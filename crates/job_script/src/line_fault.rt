use crate::line_kind::LineKind;
use std::alloc::AllocError;

/// Why a line is refused: the first fault from the left.
#[derive(Clone, Copy, Debug)]
pub enum LineFault {
    Bad(LineKind),
    /// A name or a global of the right form that isn't declared, or is declared as another kind.
    Unknown,
    Memory(AllocError),
}
