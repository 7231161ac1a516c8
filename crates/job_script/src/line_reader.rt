//! One line of a script, read after what is declared.
ghost use Rattle.std.specs.Prelude.{◌≡◌, ◌≢◌, ◌↔◌, ◌⊎◌, ◌++◌, ◌∷◌, [], ℕ, List, IsTrue, IfOk, IfErr, IfSome, IfNone};
ghost use Rattle.job_script.specs.Names.{IsNodeName};
ghost use Rattle.job_script.specs.Refusals.{IsMemoryFault};
ghost use Rattle.job_script.specs.Scripts.{ReadsLine, ReadsText, ReadsNamed, RefusesLine, RefusesText, RefusesNamed};
ghost use Rattle.job_script.specs.Words.{IsSilent};

use crate::command_reader::read_command;
use crate::declaration_rows::read_declaration;
use crate::declared::Declared;
use crate::declaring_word::declaring_word_of;
use crate::line::Line;
use crate::line_fault::LineFault;
use crate::line_kind::LineKind;
use crate::name_form::is_node_name;
use crate::name_kind::NameKind;
use crate::splits::{split_word, trim};
use crate::todo::Todo;
use crate::todo_rows::read_todo;
use crate::todo_word::TodoWord;
use std::alloc::Global;

/// Whether a line does nothing: an empty one, or a comment.
fn is_silent(text: &[u8]) -> bool
    ensures { IsTrue result ↔ IsSilent text.now }
{
    match text.split_first() {
        Some((first, _)) => *first == b'#',
        None => true,
    }
}

/// The name in front of a colon, if this is how a job's line begins.
fn job_name_of(word: &[u8]) -> Option<&[u8]>
    ensures some { IfSome result (λ name. IsNodeName name.now × (word.now ≡ name.now ++ 58 ∷ [])) }
    ensures none { IfNone result ((name : List ℕ) → IsNodeName name → word.now ≢ name ++ 58 ∷ []) }
{
    let Some((last, name)) = word.split_last() else {
        return None;
    };
    if *last != b':' {
        return None;
    }
    if is_node_name(name) { Some(name) } else { None }
}

/// What a job's line asks for, after its name.
fn read_job_line(
    alloc: Global,
    declared: &Declared,
    name: &[u8],
    text: &[u8],
) -> Result<Todo, LineFault>
    ensures ok { IfOk result (ReadsNamed declared.now name.now text.now) }
    ensures err { IfErr result (λ fault. IsMemoryFault fault ⊎ RefusesNamed declared.now name.now text.now fault) }
{
    let Some(job) = declared.index_of(NameKind::Job, name) else {
        return Err(LineFault::Unknown);
    };
    let command = read_command(alloc, declared, text)?;
    Ok(Todo::Job {
        job: job as u16,
        command,
    })
}

/// What a line is that has no spaces at its ends.
fn read_text(alloc: Global, declared: &Declared, text: &[u8]) -> Result<Line, LineFault>
    ensures ok { IfOk result (ReadsText declared.now text.now) }
    ensures err { IfErr result (RefusesText declared.now text.now) }
{
    if is_silent(text) {
        return Ok(Line::Nothing);
    }
    let (word, rest) = split_word(text);
    if let Some(declaring) = declaring_word_of(word) {
        if declared.is_closed {
            return Err(LineFault::Bad(LineKind::Late));
        }
        let declaration = read_declaration(alloc, declared, declaring, rest)?;
        return Ok(Line::Declares(declaration));
    }
    if let Some(asking) = TodoWord::of(word) {
        let todo = read_todo(declared, asking, rest)?;
        return Ok(Line::Asks(todo));
    }
    let Some(name) = job_name_of(word) else {
        return Err(LineFault::Bad(LineKind::Unknown));
    };
    let todo = read_job_line(alloc, declared, name, rest)?;
    Ok(Line::Asks(todo))
}

/// What a line is, after what is declared. The first fault from the left counts.
pub fn read_line(alloc: Global, declared: &Declared, raw: &[u8]) -> Result<Line, LineFault>
    ensures ok { IfOk result (ReadsLine declared.now raw.now) }
    ensures err { IfErr result (RefusesLine declared.now raw.now) }
{
    read_text(alloc, declared, trim(raw))
}
