//! Values among the parts of a line.
ghost use Rattle.std.specs.Prelude.{◌≡◌, ℕ, ◌≤◌, List, length, drop, IfOk, IfErr};
ghost use Rattle.subscript_keys.specs.declared.limits.TheConstants.{VALUE_LIMIT};
ghost use Rattle.global_text.specs.Strings.{ReadsString};
ghost use Rattle.job_script.specs.declared.line_fault.LineFault.{LineFault};
ghost use Rattle.job_script.specs.declared.line_kind.LineKind.{LineKind};
ghost use Rattle.job_script.specs.Words.{IsWordEnd};
ghost use Rattle.job_script.specs.Parts.{EndsBefore};
ghost use Rattle.job_script.specs.Refusals.{RefusesValue};

use crate::line_fault::LineFault;
use crate::line_kind::LineKind;
use crate::word_end::word_end;
use global_text::{TextError, read_value};
use std::alloc::Global;
use subscript_keys::ValueBytes;

/// What follows a value that takes so many bytes, and the spaces after it.
fn behind_value(text: &[u8], taken: usize) -> Result<&[u8], LineFault>
    requires { taken ≤ length text.now }
    ensures ok { IfOk result (λ rest. EndsBefore (drop taken text.now) rest.now) }
    ensures err { IfErr result (λ fault. (fault ≡ LineFault.Bad LineKind.Value)
        × (IsWordEnd (drop taken text.now) → ⊥)) }
{
    let (_, behind) = text.split_at(taken);
    match word_end(behind) {
        Some(rest) => Ok(rest),
        None => Err(LineFault::Bad(LineKind::Value)),
    }
}

/// A value of at most `VALUE_LIMIT` bytes, and what follows it.
pub fn take_value(alloc: Global, text: &[u8]) -> Result<(ValueBytes, &[u8]), LineFault>
    ensures ok { IfOk result (λ got. (behind : List ℕ) × ReadsString got.0 text.now behind
        × (length got.0 ≤ VALUE_LIMIT) × EndsBefore behind got.1.now) }
    ensures err { IfErr result (RefusesValue text.now) }
{
    if text.is_empty() {
        return Err(LineFault::Bad(LineKind::NoValue));
    }
    match read_value(alloc, text) {
        Ok((value, taken)) => Ok((value, behind_value(text, taken)?)),
        Err(TextError::Memory(error)) => Err(LineFault::Memory(error)),
        Err(TextError::ValueTooLong) => Err(LineFault::Bad(LineKind::Long)),
        Err(_) => Err(LineFault::Bad(LineKind::Value)),
    }
}
