//! The reader of scripts.
ghost use Rattle.std.specs.Prelude.{◌≡◌, ◌≢◌, ◌↔◌, ◌<◌, ◌≤◌, length, Err, IfOk, IfErr};
ghost use Rattle.job_script.specs.Lines.{script_lines};
ghost use Rattle.job_script.specs.Scripts.{IsScriptText, RefusesScript, ScriptMay, error_at};
ghost use Rattle.job_script.specs.declared.limits.TheConstants.{LINE_LIMIT};
ghost use Rattle.job_script.specs.declared.script_error.ScriptError.{ScriptError};

use crate::limits::LINE_LIMIT;
use crate::line_fault::LineFault;
use crate::line_reader::read_line;
use crate::reading::Reading;
use crate::script::Script;
use crate::script_error::ScriptError;
use crate::splits::{count_lines, split_line};
use std::alloc::Global;

/// Why a script with this line is none.
fn error_at(line: u32, fault: LineFault) -> ScriptError
    ensures { result ≡ error_at line fault }
{
    match fault {
        LineFault::Bad(kind) => ScriptError::BadLine { line, kind },
        LineFault::Unknown => ScriptError::UnknownName { line },
        LineFault::Memory(error) => ScriptError::Memory(error),
    }
}

/// Reads the lines of a script that has no more than may be.
fn read_lines(alloc: Global, text: &[u8]) -> Result<Script, ScriptError>
    requires { length (script_lines text.now) ≤ LINE_LIMIT }
    ensures ok { IfOk result (λ script. IsScriptText script text.now) }
    ensures may { IfOk result ScriptMay }
    ensures err { IfErr result (RefusesScript text.now) }
    ensures few { result ≢ Err ScriptError.TooManyLines }
{
    let mut reading = Reading::new(alloc);
    let mut rest = text;
    while !rest.is_empty() {
        let (raw, behind) = split_line(rest);
        let line = match read_line(alloc, &reading.declared, raw) {
            Ok(line) => line,
            Err(fault) => return Err(error_at(reading.line, fault)),
        };
        reading = match reading.with(line) {
            Ok(next) => next,
            Err(error) => return Err(ScriptError::Memory(error)),
        };
        rest = behind;
    }
    Ok(reading.into_script())
}

/// Reads a script. Lines count from 1; of several faults the first from the left in the first bad line counts.
pub fn read_script(alloc: Global, text: &[u8]) -> Result<Script, ScriptError>
    ensures ok { IfOk result (λ script. IsScriptText script text.now) }
    ensures may { IfOk result ScriptMay }
    ensures err { IfErr result (RefusesScript text.now) }
    ensures too_many { (result ≡ Err ScriptError.TooManyLines) ↔ LINE_LIMIT < length (script_lines text.now) }
{
    if count_lines(text) > LINE_LIMIT {
        return Err(ScriptError::TooManyLines);
    }
    read_lines(alloc, text)
}
