//! Lines that declare something, after their first word.
ghost use Rattle.std.specs.Prelude.{codes, IfOk, IfErr};
ghost use Rattle.job_script.specs.FirstWords.{declaring_text};
ghost use Rattle.job_script.specs.Refusals.{RefusesBehind};
ghost use Rattle.job_script.specs.Rows.{ReadsBehind, declaration_row};

use crate::declaration::Declaration;
use crate::declared::Declared;
use crate::declared_line::DeclaringWord;
use crate::line_end::line_end;
use crate::line_fault::LineFault;
use crate::name_kind::NameKind;
use crate::name_parts::{take_new_global, take_new_name, take_of_kind, take_setting};
use crate::number_parts::take_number;
use std::alloc::Global;

/// The largest time of the connections, in ticks.
const TIME_LIMIT: u64 = 100_000;

/// A data server's line.
#[tactic(auto, using(crate::proofs::DeclarationLemmas::data_rows))]
fn read_data(alloc: Global, declared: &Declared, text: &[u8]) -> Result<Declaration, LineFault>
    ensures ok { IfOk result (ReadsBehind declaration_row declared.now (codes "data") text.now) }
    ensures err { IfErr result (RefusesBehind declaration_row declared.now (codes "data") text.now) }
{
    let (name, rest) = take_new_name(alloc, declared, NameKind::Server, text)?;
    line_end(rest)?;
    Ok(Declaration::Server { name })
}

/// An application server's line.
#[tactic(auto, using(crate::proofs::DeclarationLemmas::app_rows))]
fn read_app(alloc: Global, declared: &Declared, text: &[u8]) -> Result<Declaration, LineFault>
    ensures ok { IfOk result (ReadsBehind declaration_row declared.now (codes "app") text.now) }
    ensures err { IfErr result (RefusesBehind declaration_row declared.now (codes "app") text.now) }
{
    let (name, rest) = take_new_name(alloc, declared, NameKind::App, text)?;
    line_end(rest)?;
    Ok(Declaration::App { name })
}

/// A job's line.
#[tactic(auto, using(crate::proofs::DeclarationLemmas::job_rows))]
fn read_job(alloc: Global, declared: &Declared, text: &[u8]) -> Result<Declaration, LineFault>
    ensures ok { IfOk result (ReadsBehind declaration_row declared.now (codes "job") text.now) }
    ensures err { IfErr result (RefusesBehind declaration_row declared.now (codes "job") text.now) }
{
    let (name, rest) = take_new_name(alloc, declared, NameKind::Job, text)?;
    let (app, rest) = take_of_kind(declared, NameKind::App, rest)?;
    line_end(rest)?;
    Ok(Declaration::Job { name, app })
}

/// A global's line.
#[tactic(auto, using(crate::proofs::DeclarationLemmas::global_rows))]
fn read_global(alloc: Global, declared: &Declared, text: &[u8]) -> Result<Declaration, LineFault>
    ensures ok { IfOk result (ReadsBehind declaration_row declared.now (codes "global") text.now) }
    ensures err { IfErr result (RefusesBehind declaration_row declared.now (codes "global") text.now) }
{
    let (name, rest) = take_new_global(alloc, declared, text)?;
    let (server, rest) = take_of_kind(declared, NameKind::Server, rest)?;
    line_end(rest)?;
    Ok(Declaration::Global { name, server })
}

/// A setting's line.
#[tactic(auto, using(crate::proofs::DeclarationLemmas::time_rows))]
fn read_time(declared: &Declared, text: &[u8]) -> Result<Declaration, LineFault>
    ensures ok { IfOk result (ReadsBehind declaration_row declared.now (codes "time") text.now) }
    ensures err { IfErr result (RefusesBehind declaration_row declared.now (codes "time") text.now) }
{
    let (setting, rest) = take_setting(text)?;
    let (ticks, rest) = take_number(rest, 1, TIME_LIMIT)?;
    line_end(rest)?;
    Ok(Declaration::Time { setting, ticks })
}

/// What a line declares, after this first word.
pub fn read_declaration(
    alloc: Global,
    declared: &Declared,
    word: DeclaringWord,
    text: &[u8],
) -> Result<Declaration, LineFault>
    ensures ok { IfOk result (ReadsBehind declaration_row declared.now (declaring_text word) text.now) }
    ensures err { IfErr result (RefusesBehind declaration_row declared.now (declaring_text word) text.now) }
{
    match word {
        DeclaringWord::Data => read_data(alloc, declared, text),
        DeclaringWord::App => read_app(alloc, declared, text),
        DeclaringWord::Job => read_job(alloc, declared, text),
        DeclaringWord::Global => read_global(alloc, declared, text),
        DeclaringWord::Time => read_time(declared, text),
    }
}
