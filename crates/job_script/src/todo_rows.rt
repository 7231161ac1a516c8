//! Lines that ask for something, after their first word.
ghost use Rattle.std.specs.Prelude.{codes, [], ◌∷◌, IfOk, IfErr};
ghost use Rattle.job_script.specs.FirstWords.{todo_text};
ghost use Rattle.job_script.specs.Parts.{OfKind, TakesParts};
ghost use Rattle.job_script.specs.Refusals.{RefusesBehind, RefusesOne, RefusesPair};
ghost use Rattle.job_script.specs.Rows.{ReadsBehind, todo_row};
ghost use Rattle.job_script.specs.declared.name_kind.NameKind.{NameKind};

use crate::declared::Declared;
use crate::line_end::line_end;
use crate::line_fault::LineFault;
use crate::name_kind::NameKind;
use crate::name_parts::take_of_kind;
use crate::number_parts::{take_number, take_pick};
use crate::todo::Todo;
use crate::todo_word::TodoWord;

/// The largest count of ticks.
const TICK_LIMIT: u64 = 10_000;

/// One name that is declared as one of this kind, and nothing after it.
#[tactic(auto, using(crate::proofs::TodoLemmas::one_rows))]
fn read_one(declared: &Declared, kind: NameKind, text: &[u8]) -> Result<u8, LineFault>
    ensures ok { IfOk result (λ index. TakesParts declared.now (OfKind kind index ∷ []) text.now) }
    ensures err { IfErr result (RefusesOne declared.now kind text.now) }
{
    let (index, rest) = take_of_kind(declared, kind, text)?;
    line_end(rest)?;
    Ok(index)
}

/// An application server and a data server, and nothing after them.
#[tactic(auto, using(crate::proofs::TodoLemmas::pair_rows))]
fn read_pair(declared: &Declared, text: &[u8]) -> Result<(u8, u8), LineFault>
    ensures ok { IfOk result (λ pair. TakesParts declared.now (OfKind NameKind.App pair.0 ∷ OfKind NameKind.Server pair.1 ∷ []) text.now) }
    ensures err { IfErr result (RefusesPair declared.now text.now) }
{
    let (app, rest) = take_of_kind(declared, NameKind::App, text)?;
    let (server, rest) = take_of_kind(declared, NameKind::Server, rest)?;
    line_end(rest)?;
    Ok((app, server))
}

/// How often the clock goes up.
#[tactic(auto, using(crate::proofs::TodoLemmas::tick_rows))]
fn read_tick(declared: &Declared, text: &[u8]) -> Result<Todo, LineFault>
    ensures ok { IfOk result (ReadsBehind todo_row declared.now (codes "tick") text.now) }
    ensures err { IfErr result (RefusesBehind todo_row declared.now (codes "tick") text.now) }
{
    let (count, rest) = take_number(text, 1, TICK_LIMIT)?;
    line_end(rest)?;
    Ok(Todo::Tick {
        count: count as u32,
    })
}

/// Which data server crashes, and the pick of its disk's image.
#[tactic(auto, using(crate::proofs::TodoLemmas::crash_rows))]
fn read_crash(declared: &Declared, text: &[u8]) -> Result<Todo, LineFault>
    ensures ok { IfOk result (ReadsBehind todo_row declared.now (codes "crash") text.now) }
    ensures err { IfErr result (RefusesBehind todo_row declared.now (codes "crash") text.now) }
{
    let (server, rest) = take_of_kind(declared, NameKind::Server, text)?;
    let (pick, rest) = take_pick(rest)?;
    line_end(rest)?;
    Ok(Todo::Crash { server, pick })
}

/// What a line asks for, after this first word.
#[tactic(auto, using(crate::proofs::TodoLemmas::todo_rows))]
pub fn read_todo(declared: &Declared, word: TodoWord, text: &[u8]) -> Result<Todo, LineFault>
    ensures ok { IfOk result (ReadsBehind todo_row declared.now (todo_text word) text.now) }
    ensures err { IfErr result (RefusesBehind todo_row declared.now (todo_text word) text.now) }
{
    match word {
        TodoWord::Hold => {
            line_end(text)?;
            Ok(Todo::Hold)
        }
        TodoWord::Flow => {
            line_end(text)?;
            Ok(Todo::Flow)
        }
        TodoWord::Pump => {
            line_end(text)?;
            Ok(Todo::Pump)
        }
        TodoWord::Up => {
            let (app, server) = read_pair(declared, text)?;
            Ok(Todo::Up { app, server })
        }
        TodoWord::Down => {
            let (app, server) = read_pair(declared, text)?;
            Ok(Todo::Down { app, server })
        }
        TodoWord::Break => {
            let (app, server) = read_pair(declared, text)?;
            Ok(Todo::Break { app, server })
        }
        TodoWord::Mend => {
            let (app, server) = read_pair(declared, text)?;
            Ok(Todo::Mend { app, server })
        }
        TodoWord::Save => {
            let server = read_one(declared, NameKind::Server, text)?;
            Ok(Todo::Save { server })
        }
        TodoWord::Restart => {
            let server = read_one(declared, NameKind::Server, text)?;
            Ok(Todo::Restart { server })
        }
        TodoWord::Die => {
            let app = read_one(declared, NameKind::App, text)?;
            Ok(Todo::Die { app })
        }
        TodoWord::Await => {
            let job = read_one(declared, NameKind::Job, text)?;
            Ok(Todo::Await { job: job as u16 })
        }
        TodoWord::Tick => read_tick(declared, text),
        TodoWord::Crash => read_crash(declared, text),
    }
}
