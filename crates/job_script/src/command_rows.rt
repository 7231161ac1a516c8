//! A job's commands after their first words.
ghost use Rattle.std.specs.Prelude.{◌≡◌, [], ◌∷◌, IfOk, IfErr, codes};
ghost use Rattle.app_job.specs.Sites.{Site};
ghost use Rattle.job_script.specs.declared.declared.Declared.{Declared};
ghost use Rattle.job_script.specs.Parts.{ANode, TakesFlag, TakesParts};
ghost use Rattle.job_script.specs.Refusals.{RefusesBehind, RefusesParts};
ghost use Rattle.job_script.specs.Rows.{ReadsBehind, command_row, is_shared};

use crate::declared::Declared;
use crate::flag_parts::{take_flag, take_wait};
use crate::line_end::line_end;
use crate::line_fault::LineFault;
use crate::name_kind::NameKind;
use crate::name_parts::take_of_kind;
use crate::node_parts::{take_next, take_node};
use crate::number_parts::take_amount;
use crate::value_part::take_value;
use app_job::{Command, Target};
use plain_orders::Mode;
use std::alloc::Global;

/// A node, after which nothing follows.
fn only_node(alloc: Global, declared: &Declared, text: &[u8]) -> Result<Target, LineFault>
    ensures ok { IfOk result (λ at. TakesParts declared.now (ANode at ∷ []) text.now) }
    ensures err { IfErr result (λ fault. (at : Site)
        × RefusesParts declared.now (ANode at ∷ []) text.now fault) }
{
    let (at, rest) = take_node(alloc, declared, text)?;
    line_end(rest)?;
    Ok(at)
}

/// How a lock is held, and what follows the word that says so.
fn take_mode(text: &[u8]) -> (Mode, &[u8])
    ensures { TakesFlag (codes "shared") (is_shared result.0) text.now result.1.now }
{
    let (shared, rest) = take_flag(text, b"shared");
    if shared {
        (Mode::Shared, rest)
    } else {
        (Mode::Exclusive, rest)
    }
}

/// A node and the value that it gets.
pub fn read_set(alloc: Global, declared: &Declared, text: &[u8]) -> Result<Command, LineFault>
    ensures ok { IfOk result (ReadsBehind command_row declared.now (codes "set") text.now) }
    ensures err { IfErr result (RefusesBehind command_row declared.now (codes "set") text.now) }
{
    let (at, rest) = take_node(alloc, declared, text)?;
    let (value, rest) = take_value(alloc, rest)?;
    line_end(rest)?;
    Ok(Command::Set { at, value })
}

/// The node that goes.
pub fn read_kill(alloc: Global, declared: &Declared, text: &[u8]) -> Result<Command, LineFault>
    ensures ok { IfOk result (ReadsBehind command_row declared.now (codes "kill") text.now) }
    ensures err { IfErr result (RefusesBehind command_row declared.now (codes "kill") text.now) }
{
    let at = only_node(alloc, declared, text)?;
    Ok(Command::Kill { at })
}

/// The node whose value is asked for.
pub fn read_get(alloc: Global, declared: &Declared, text: &[u8]) -> Result<Command, LineFault>
    ensures ok { IfOk result (ReadsBehind command_row declared.now (codes "get") text.now) }
    ensures err { IfErr result (RefusesBehind command_row declared.now (codes "get") text.now) }
{
    let at = only_node(alloc, declared, text)?;
    Ok(Command::Get { at })
}

/// The node whose shape is asked for.
pub fn read_shape(alloc: Global, declared: &Declared, text: &[u8]) -> Result<Command, LineFault>
    ensures ok { IfOk result (ReadsBehind command_row declared.now (codes "data") text.now) }
    ensures err { IfErr result (RefusesBehind command_row declared.now (codes "data") text.now) }
{
    let at = only_node(alloc, declared, text)?;
    Ok(Command::Shape { at })
}

/// The node after which the next subscript is asked for.
pub fn read_next(alloc: Global, declared: &Declared, text: &[u8]) -> Result<Command, LineFault>
    ensures ok { IfOk result (ReadsBehind command_row declared.now (codes "next") text.now) }
    ensures err { IfErr result (RefusesBehind command_row declared.now (codes "next") text.now) }
{
    let (parent, sub, rest) = take_next(alloc, declared, text)?;
    line_end(rest)?;
    Ok(Command::Next { parent, sub })
}

/// A node and what its value goes up by.
pub fn read_incr(alloc: Global, declared: &Declared, text: &[u8]) -> Result<Command, LineFault>
    ensures ok { IfOk result (ReadsBehind command_row declared.now (codes "incr") text.now) }
    ensures err { IfErr result (RefusesBehind command_row declared.now (codes "incr") text.now) }
{
    let (at, rest) = take_node(alloc, declared, text)?;
    let (amount, rest) = take_amount(rest)?;
    line_end(rest)?;
    Ok(Command::Incr { at, amount })
}

/// The node that is locked, how, and how long the job waits.
pub fn read_lock(alloc: Global, declared: &Declared, text: &[u8]) -> Result<Command, LineFault>
    ensures ok { IfOk result (ReadsBehind command_row declared.now (codes "lock") text.now) }
    ensures err { IfErr result (RefusesBehind command_row declared.now (codes "lock") text.now) }
{
    let (at, rest) = take_node(alloc, declared, text)?;
    let (mode, rest) = take_mode(rest);
    let (wait, rest) = take_wait(rest)?;
    line_end(rest)?;
    Ok(Command::Lock { at, mode, wait })
}

/// The node whose lock is given up, how it is held, and whether at once.
pub fn read_unlock(alloc: Global, declared: &Declared, text: &[u8]) -> Result<Command, LineFault>
    ensures ok { IfOk result (ReadsBehind command_row declared.now (codes "unlock") text.now) }
    ensures err { IfErr result (RefusesBehind command_row declared.now (codes "unlock") text.now) }
{
    let (at, rest) = take_node(alloc, declared, text)?;
    let (mode, rest) = take_mode(rest);
    let (now, rest) = take_flag(rest, b"now");
    line_end(rest)?;
    Ok(Command::Unlock { at, mode, now })
}

/// Whether the job waits until the transaction is on disk.
pub fn read_commit(text: &[u8]) -> Result<Command, LineFault>
    ensures ok { IfOk result (λ command. (d : Declared) →
        ReadsBehind command_row d (codes "tcommit") text.now command) }
    ensures err { IfErr result (λ fault. (d : Declared) →
        RefusesBehind command_row d (codes "tcommit") text.now fault) }
{
    let (sync, rest) = take_flag(text, b"sync");
    line_end(rest)?;
    Ok(Command::Commit { sync })
}

/// The data server whose saving the job waits for.
pub fn read_sync(declared: &Declared, text: &[u8]) -> Result<Command, LineFault>
    ensures ok { IfOk result (ReadsBehind command_row declared.now (codes "sync") text.now) }
    ensures err { IfErr result (RefusesBehind command_row declared.now (codes "sync") text.now) }
{
    let (server, rest) = take_of_kind(declared, NameKind::Server, text)?;
    line_end(rest)?;
    Ok(Command::Sync { server })
}
