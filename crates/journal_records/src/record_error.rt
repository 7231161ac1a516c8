ghost use Rattle.std.specs.Prelude.{◌≡◌};
ghost use Rattle.journal_records.specs.declared.record_error.RecordError.TheVariants.{Memory};

use std::alloc::AllocError;
use thiserror::Error;

/// Why no entry was read.
#[derive(Debug, Drop, Error)]
pub enum RecordError {
    #[error("these bytes begin with no entry's record")]
    NotARecord,
    #[error("out of memory at a record")]
    Memory(AllocError),
}

impl From<AllocError> for RecordError {
    ghost from_gives = { λ alloc_error e. e ≡ Memory alloc_error };

    fn from(alloc_error: AllocError) -> RecordError {
        RecordError::Memory(alloc_error)
    }
}
