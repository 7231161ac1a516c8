//! A job's command.
ghost use Rattle.std.specs.Prelude.{◌⊎◌, IfOk, IfErr};
ghost use Rattle.job_script.specs.CommandWords.{command_text};
ghost use Rattle.job_script.specs.Refusals.{IsMemoryFault, RefusesBehind};
ghost use Rattle.job_script.specs.Rows.{Reads, ReadsBehind, command_row};
ghost use Rattle.job_script.specs.Scripts.{RefusesCommand};

use crate::command_rows::{
    read_commit, read_get, read_incr, read_kill, read_lock, read_next, read_set, read_shape,
    read_sync, read_unlock,
};
use crate::command_word::CommandWord;
use crate::declared::Declared;
use crate::line_end::line_end;
use crate::line_fault::LineFault;
use crate::line_kind::LineKind;
use crate::splits::split_word;
use app_job::Command;
use std::alloc::Global;

/// A command after its first word.
fn read_behind(
    alloc: Global,
    declared: &Declared,
    word: CommandWord,
    text: &[u8],
) -> Result<Command, LineFault>
    ensures ok { IfOk result (ReadsBehind command_row declared.now (command_text word) text.now) }
    ensures err { IfErr result
        (RefusesBehind command_row declared.now (command_text word) text.now) }
{
    match word {
        CommandWord::Set => read_set(alloc, declared, text),
        CommandWord::Kill => read_kill(alloc, declared, text),
        CommandWord::Get => read_get(alloc, declared, text),
        CommandWord::Shape => read_shape(alloc, declared, text),
        CommandWord::Next => read_next(alloc, declared, text),
        CommandWord::Incr => read_incr(alloc, declared, text),
        CommandWord::Lock => read_lock(alloc, declared, text),
        CommandWord::Unlock => read_unlock(alloc, declared, text),
        CommandWord::Start => {
            line_end(text)?;
            Ok(Command::Start)
        }
        CommandWord::Commit => read_commit(text),
        CommandWord::Rollback => {
            line_end(text)?;
            Ok(Command::Rollback)
        }
        CommandWord::Sync => read_sync(declared, text),
    }
}

/// The command that a text is. The first fault from the left counts, a word that is no command's among them.
pub fn read_command(alloc: Global, declared: &Declared, text: &[u8]) -> Result<Command, LineFault>
    ensures ok { IfOk result (λ command. Reads command_row declared.now text.now command) }
    ensures err { IfErr result (λ fault.
        IsMemoryFault fault ⊎ RefusesCommand declared.now text.now fault) }
{
    let (first, rest) = split_word(text);
    match CommandWord::of(first) {
        Some(word) => read_behind(alloc, declared, word, rest),
        None => Err(LineFault::Bad(LineKind::Unknown)),
    }
}
