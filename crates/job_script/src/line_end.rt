//! The end of a line.
ghost use Rattle.std.specs.Prelude.{◌≡◌, [], IfOk, IfErr};
ghost use Rattle.job_script.specs.Refusals.{RefusesEnd};

use crate::line_fault::LineFault;
use crate::line_kind::LineKind;

/// Nothing follows; else there is a word too many.
pub fn line_end(text: &[u8]) -> Result<(), LineFault>
    ensures ok { IfOk result (λ _. text.now ≡ []) }
    ensures err { IfErr result (RefusesEnd text.now) }
{
    if text.is_empty() {
        Ok(())
    } else {
        Err(LineFault::Bad(LineKind::Words))
    }
}
