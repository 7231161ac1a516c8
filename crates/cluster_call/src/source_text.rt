//! The text of a source, read to its end.
ghost use Rattle.std.specs.Prelude.{◌≡◌, ◌<◌, ◌≤◌, length, vec_len, IfOk, OnErr, IfErr};
ghost use Rattle.std.specs.Io.KnownBytes.{Consumes, IsAtEnd};
ghost use Rattle.outer_io.specs.Told.{source_told};
ghost use Rattle.cluster_call.specs.Reading.{StopsReading};

use crate::limits::{CHUNK, TEXT_LIMIT};
use outer_io::Source;
use std::alloc::{AllocError, Global};

/// Why a source was not read to its end.
#[derive(Clone, Copy, Debug)]
pub enum TextError {
    Memory,
    /// The source failed.
    Fault,
    /// It gave more than a script may have.
    TooLarge,
}

/// A buffer for takes.
fn buffer(alloc: Global) -> Result<Vec<u8>, AllocError>
    ensures { IfOk result (λ buf. vec_len buf ≡ CHUNK) }
{
    vec![in alloc; 0u8; CHUNK]
}

/// Takes all that the source has left.
pub fn read_text<S: Source>(alloc: Global, src: &mut S) -> Result<Vec<u8>, TextError>
    ensures consumed { IfOk result (λ text. Consumes (S.left src.old) (S.left src.new) text.items) }
    ensures end { IfOk result (λ _. IsAtEnd (S.left src.new)) }
    ensures within { IfOk result (λ text. vec_len text ≤ TEXT_LIMIT) }
    ensures later { S.faults src.old ≤ S.faults src.new }
    ensures err { IfErr result
        (StopsReading (source_told S.left S.faults src.old src.new)) }
{
    let mut text = Vec::new(alloc);
    let Ok(mut buf) = buffer(alloc) else {
        return Err(TextError::Memory);
    };
    for _turn in 0..=TEXT_LIMIT {
        let Ok(count) = src.take(&mut buf) else {
            return Err(TextError::Fault);
        };
        if count == 0 {
            return Ok(text);
        }
        let (taken, _) = buf.split_at(count);
        if text.extend_from_slice(taken).is_err() {
            return Err(TextError::Memory);
        }
        if text.len() > TEXT_LIMIT {
            return Err(TextError::TooLarge);
        }
    }
    Err(TextError::TooLarge)
}
