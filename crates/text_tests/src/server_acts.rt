//! Acts of data servers.
ghost use Rattle.std.specs.Prelude.{IfOk};
ghost use Rattle.std.specs.List.{AllByRecursion};
ghost use Rattle.transcript.specs.ActText.{CanPrintAct, CanPrintEntry};

use crate::parts::{index, key, mode, number, op, word};
use plain_orders::{Act, Entries, Entry, ShutCause};
use std::alloc::Global;
use std::str::SplitWhitespace;
use std::test::*;

/// The entry of an item of this session.
fn item_entry(
    alloc: Global,
    kind: &str,
    session: u64,
    words: &mut SplitWhitespace<'_>,
) -> Result<Entry, Fail>
    ensures { IfOk result (λ entry. CanPrintEntry entry) }
{
    let w = number(words)?;
    let job = word(words)?.parse::<u16>()?;
    let txn = word(words)?.parse::<u32>()?;
    if kind == "commit" {
        return Ok(Entry::Commit {
            session,
            w,
            job,
            txn,
        });
    }
    if kind == "rollback" {
        return Ok(Entry::Rollback {
            session,
            w,
            job,
            txn,
        });
    }
    let op = op(alloc, word(words)?, words)?;
    Ok(Entry::Update {
        session,
        w,
        job,
        txn,
        op,
    })
}

/// The entry that words tell.
fn entry(alloc: Global, words: &mut SplitWhitespace<'_>) -> Result<Entry, Fail>
    ensures { IfOk result (λ entry. CanPrintEntry entry) }
{
    let kind = word(words)?;
    if kind == "epoch" {
        let number = word(words)?.parse::<u32>()?;
        return Ok(Entry::Epoch { number });
    }
    let session = number(words)?;
    if kind == "close" {
        return Ok(Entry::Closed { session });
    }
    if kind == "open" {
        return Ok(Entry::Opened {
            session,
            app: index(words)?,
        });
    }
    item_entry(alloc, kind, session, words)
}

/// The entries that the journal of a data server held at first, none or two, each after the word `entry`.
fn entries(alloc: Global, words: &mut SplitWhitespace<'_>) -> Result<Vec<Entry>, Fail>
    ensures { IfOk result (λ entries. AllByRecursion CanPrintEntry entries.items) }
{
    if number(words)? == 0 {
        return Ok(Vec::new(alloc));
    }
    let _ = word(words)?;
    let first = entry(alloc, words)?;
    let _ = word(words)?;
    let second = entry(alloc, words)?;
    Ok(vec![in alloc; first, second]?)
}

/// An act of a data server that tells no number, or entries.
pub fn server_act(
    alloc: Global,
    kind: &str,
    server: u8,
    words: &mut SplitWhitespace<'_>,
) -> Result<Act, Fail>
    ensures { IfOk result (λ act. CanPrintAct act) }
{
    if kind == "back" {
        return Ok(Act::Back { server });
    }
    if kind == "opened" {
        let entries = Entries::from_vec(entries(alloc, words)?);
        return Ok(Act::Opened { server, entries });
    }
    match entry(alloc, words)? {
        Entry::Epoch { .. } | Entry::Closed { .. } => Err(Fail::from("no act")),
        entry => Ok(Act::Enter { server, entry }),
    }
}

fn shut_cause(words: &mut SplitWhitespace<'_>) -> Result<ShutCause, Fail> {
    match word(words)? {
        "trouble" => Ok(ShutCause::Trouble {
            time: number(words)?,
        }),
        "round" => Ok(ShutCause::Round {
            time: number(words)?,
        }),
        _ => Ok(ShutCause::Replaced),
    }
}

/// A hold that is given, or given up.
fn hold_act(
    alloc: Global,
    kind: &str,
    server: u8,
    session: u64,
    words: &mut SplitWhitespace<'_>,
) -> Result<Act, Fail>
    ensures { IfOk result (λ act. CanPrintAct act) }
{
    let job = word(words)?.parse::<u16>()?;
    let mode = mode(words)?;
    let key = key(alloc, word(words)?).ok_or("no node")?;
    if kind == "free" {
        return Ok(Act::Free {
            server,
            session,
            job,
            mode,
            key,
        });
    }
    Ok(Act::Grant {
        server,
        session,
        job,
        mode,
        key,
        at: number(words)?,
    })
}

/// An act of a data server that tells a position or a session.
pub fn counted_act(
    alloc: Global,
    kind: &str,
    server: u8,
    words: &mut SplitWhitespace<'_>,
) -> Result<Act, Fail>
    ensures { IfOk result (λ act. CanPrintAct act) }
{
    let session = number(words)?;
    match kind {
        "synced" => return Ok(Act::Synced {
            server,
            length: session,
        }),
        "crash" => return Ok(Act::Crash {
            server,
            kept: session,
        }),
        "release" => return Ok(Act::Release { server, session }),
        "shut" => return Ok(Act::Shut {
            server,
            session,
            cause: shut_cause(words)?,
        }),
        _ => {}
    }
    hold_act(alloc, kind, server, session, words)
}
