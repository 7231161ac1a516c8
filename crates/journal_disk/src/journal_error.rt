ghost use Rattle.std.specs.Prelude.{◌≡◌, alloc_error};
ghost use Rattle.journal_disk.specs.declared.journal_error.JournalError.TheVariants.{Disk, Memory};
ghost use Rattle.journal_disk.specs.Errors.{error_of};

use outer_io::{Failed, Stop};
use std::alloc::AllocError;
use thiserror::Error;

/// Why a journal was not started, or a part not appended.
#[derive(Debug, Drop, Error)]
pub enum JournalError {
    #[error("the disk failed while a journal was read or written")]
    Disk,
    #[error("no batch that may be read and no closed gate stands at byte {place} of the journal")]
    NotAJournal { place: u64 },
    #[error("the journal has to be started anew, since an earlier append failed")]
    NeedsStart,
    #[error("out of memory at a journal")]
    Memory(AllocError),
}

impl From<Failed> for JournalError {
    ghost from_gives = { λ _ e. e ≡ Disk };

    fn from(_failed: Failed) -> JournalError {
        JournalError::Disk
    }
}

impl From<AllocError> for JournalError {
    ghost from_gives = { λ _ e. e ≡ Memory alloc_error };

    fn from(error: AllocError) -> JournalError {
        JournalError::Memory(error)
    }
}

impl From<Stop> for JournalError {
    ghost from_gives = { λ stop e. e ≡ error_of stop };

    fn from(stop: Stop) -> JournalError {
        match stop {
            Stop::Failed => JournalError::Disk,
            Stop::Memory => JournalError::Memory(AllocError),
        }
    }
}
