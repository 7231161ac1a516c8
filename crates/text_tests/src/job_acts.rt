//! Acts of jobs.
ghost use Rattle.std.specs.Prelude.{IfOk};
ghost use Rattle.transcript.specs.ActText.{CanPrintAct, CanPrintItem, CanPrintQuestion};

use crate::parts::{found, index, key, link_name, mode, number, op, value, via, word};
use plain_orders::{Act, Item, Question, ReasonName, Refused};
use std::alloc::Global;
use std::str::SplitWhitespace;
use std::test::*;

fn item(alloc: Global, words: &mut SplitWhitespace<'_>) -> Result<Item, Fail>
    ensures { IfOk result (λ item. CanPrintItem item) }
{
    let kind = word(words)?;
    match kind {
        "commit" => Ok(Item::Commit {
            txn: word(words)?.parse::<u32>()?,
        }),
        "rollback" => Ok(Item::Rollback {
            txn: word(words)?.parse::<u32>()?,
        }),
        _ => Ok(Item::Op(op(alloc, kind, words)?)),
    }
}

/// What a next asks for: the node of a word is the parent with the subscript.
fn next(alloc: Global, words: &mut SplitWhitespace<'_>) -> Result<Question, Fail>
    ensures { IfOk result (λ question. CanPrintQuestion question) }
{
    let node = word(words)?;
    let (front, back) = match node.rsplit_once(',') {
        Some(parts) => parts,
        None => node.split_once('(').ok_or("no subscript")?,
    };
    let parent = key(alloc, format!(in alloc; "{front})")?.as_str()).ok_or("no node")?;
    let sub = found(alloc, back)?;
    let found = found(alloc, word(words)?)?;
    Ok(Question::Next { parent, sub, found })
}

fn question(alloc: Global, words: &mut SplitWhitespace<'_>) -> Result<Question, Fail>
    ensures { IfOk result (λ question. CanPrintQuestion question) }
{
    let kind = word(words)?;
    if kind == "next" {
        return next(alloc, words);
    }
    let key = key(alloc, word(words)?).ok_or("no node")?;
    if kind == "data" {
        return Ok(Question::Shape {
            key,
            code: index(words)?,
        });
    }
    Ok(Question::Get {
        key,
        value: value(alloc, words)?,
    })
}

/// Where an act of a job's line stands.
struct At {
    job: u16,
    line: u32,
    server: u8,
    at: u64,
}

/// What an increment did.
fn sum_act(kind: &str, place: At, words: &mut SplitWhitespace<'_>) -> Result<Act, Fail>
    ensures { IfOk result (λ act. CanPrintAct act) }
{
    let At {
        job,
        line,
        server,
        at,
    } = place;
    if kind == "notwhole" {
        return Ok(Act::NotWhole {
            job,
            line,
            server,
            at,
        });
    }
    if kind == "range" {
        return Ok(Act::Range {
            job,
            line,
            server,
            at,
        });
    }
    let sum = word(words)?.parse::<i64>()?;
    Ok(Act::Counted {
        job,
        line,
        server,
        at,
        sum,
    })
}

/// A lock that is granted, or the end of a command at a data server.
fn end_act(kind: &str, place: At) -> Act
    ensures { CanPrintAct result }
{
    let At {
        job,
        line,
        server,
        at,
    } = place;
    match kind {
        "granted" => Act::Granted {
            job,
            line,
            server,
            at,
        },
        "committed" => Act::Committed {
            job,
            line,
            server,
            at,
        },
        "rolledback" => Act::RolledBack {
            job,
            line,
            server,
            at,
        },
        _ => Act::Reached {
            job,
            line,
            server,
            at,
        },
    }
}

/// An item that is issued, or a read.
fn asked_act(
    alloc: Global,
    kind: &str,
    place: At,
    words: &mut SplitWhitespace<'_>,
) -> Result<Act, Fail>
    ensures { IfOk result (λ act. CanPrintAct act) }
{
    let At {
        job,
        line,
        server,
        at,
    } = place;
    if kind == "issue" {
        let item = item(alloc, words)?;
        return Ok(Act::Issue {
            job,
            line,
            server,
            w: at,
            item,
        });
    }
    let via = via(words)?;
    let question = question(alloc, words)?;
    Ok(Act::Read {
        job,
        line,
        server,
        at,
        via,
        question,
    })
}

/// An act of a job at a data server that tells a position or a number there.
pub fn job_act(alloc: Global, kind: &str, words: &mut SplitWhitespace<'_>) -> Result<Act, Fail>
    ensures { IfOk result (λ act. CanPrintAct act) }
{
    let place = At {
        job: word(words)?.parse::<u16>()?,
        line: word(words)?.parse::<u32>()?,
        server: index(words)?,
        at: number(words)?,
    };
    match kind {
        "issue" | "read" => asked_act(alloc, kind, place, words),
        "notwhole" | "range" | "counted" => sum_act(kind, place, words),
        _ => Ok(end_act(kind, place)),
    }
}

/// An act of a job that gives a lock up.
pub fn lock_act(alloc: Global, kind: &str, words: &mut SplitWhitespace<'_>) -> Result<Act, Fail>
    ensures { IfOk result (λ act. CanPrintAct act) }
{
    let job = word(words)?.parse::<u16>()?;
    let line = word(words)?.parse::<u32>()?;
    let server = index(words)?;
    let mode = mode(words)?;
    let key = key(alloc, word(words)?).ok_or("no node")?;
    if kind == "giveup" {
        return Ok(Act::GiveUp {
            job,
            line,
            server,
            mode,
            key,
        });
    }
    Ok(Act::Quit {
        job,
        line,
        server,
        mode,
        key,
    })
}

fn refused(words: &mut SplitWhitespace<'_>) -> Result<Refused, Fail> {
    match word(words)? {
        "notransaction" => return Ok(Refused::NoTransaction),
        "toodeep" => return Ok(Refused::TooDeep),
        "rollbackonly" => return Ok(Refused::RollbackOnly),
        "locktimeout" => return Ok(Refused::LockTimeout),
        _ => {}
    }
    let server = index(words)?;
    let state = link_name(words)?;
    let reason = match word(words)? {
        "reset" => ReasonName::Reset,
        "expired" => ReasonName::Expired,
        _ => ReasonName::NoWay,
    };
    Ok(Refused::Network {
        server,
        state,
        reason,
    })
}

/// An act of a job that is at no data server.
pub fn line_act(kind: &str, words: &mut SplitWhitespace<'_>) -> Result<Act, Fail>
    ensures { IfOk result (λ act. CanPrintAct act) }
{
    let job = word(words)?.parse::<u16>()?;
    let line = word(words)?.parse::<u32>()?;
    match kind {
        "done" => Ok(Act::Done { job, line }),
        "level" => Ok(Act::Level {
            job,
            line,
            level: number(words)?,
        }),
        _ => Ok(Act::Refused {
            job,
            line,
            refused: refused(words)?,
        }),
    }
}
