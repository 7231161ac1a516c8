//! Which lines of a script are built.
ghost use Rattle.std.specs.Prelude.{◌≡◌, []};
ghost use Rattle.cluster_call.specs.Built.{first_unbuilt, has_word, is_built, is_built_command, is_same_word, is_unbuilt, unbuilt_declaration, unbuilt_todo};

use app_job::Command;
use job_script::{DeclaredLine, DeclaringWord, Script, ScriptLine, Todo};

fn is_same_word(a: DeclaringWord, b: DeclaringWord) -> bool
    ensures { result ≡ is_same_word a b }
{
    match (a, b) {
        (DeclaringWord::Data, DeclaringWord::Data)
        | (DeclaringWord::App, DeclaringWord::App)
        | (DeclaringWord::Job, DeclaringWord::Job)
        | (DeclaringWord::Global, DeclaringWord::Global)
        | (DeclaringWord::Time, DeclaringWord::Time) => true,
        _ => false,
    }
}

/// Whether a line with this word stands among these.
fn has_word(word: DeclaringWord, lines: &[DeclaredLine]) -> bool
    ensures { result ≡ has_word word lines.now }
{
    lines.iter().any(|line| is_same_word(word, line.word))
}

/// Whether a declaration after these isn't built yet.
fn is_unbuilt(before: &[DeclaredLine], word: DeclaringWord) -> bool
    ensures { result ≡ is_unbuilt before.now word }
{
    match word {
        DeclaringWord::Data => has_word(DeclaringWord::Data, before),
        DeclaringWord::App => has_word(DeclaringWord::App, before),
        DeclaringWord::Job => has_word(DeclaringWord::Job, before),
        DeclaringWord::Global => false,
        DeclaringWord::Time => true,
    }
}

/// The line of the first declaration that isn't built yet.
fn unbuilt_declaration(lines: &[DeclaredLine]) -> Option<u32>
    ensures { result ≡ unbuilt_declaration [] lines.now }
{
    for (place, line) in lines.iter().enumerate() {
        let (before, _) = lines.split_at(place);
        if is_unbuilt(before, line.word) {
            return Some(line.line);
        }
    }
    None
}

fn is_built_command(command: &Command) -> bool
    ensures { result ≡ is_built_command command.now }
{
    match command {
        Command::Set { .. }
        | Command::Kill { .. }
        | Command::Get { .. }
        | Command::Shape { .. }
        | Command::Next { .. } => true,
        _ => false,
    }
}

fn is_built(todo: &Todo) -> bool
    ensures { result ≡ is_built todo.now }
{
    match todo {
        Todo::Job { command, .. } => is_built_command(command),
        Todo::Await { .. } => true,
        _ => false,
    }
}

/// The first line that asks for something that isn't built yet.
fn unbuilt_todo(lines: &[ScriptLine]) -> Option<u32>
    ensures { result ≡ unbuilt_todo lines.now }
{
    for line in lines {
        if !is_built(&line.todo) {
            return Some(line.line);
        }
    }
    None
}

/// The first line of a script that isn't built yet.
pub fn first_unbuilt(script: &Script) -> Option<u32>
    ensures { result ≡ first_unbuilt script.now }
{
    match unbuilt_declaration(script.declarations.as_slice()) {
        Some(line) => Some(line),
        None => unbuilt_todo(script.lines.as_slice()),
    }
}
