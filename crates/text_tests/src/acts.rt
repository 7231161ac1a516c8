//! The line of each act, and an act that a line tells.
ghost use Rattle.std.specs.Prelude.{IfOk};
ghost use Rattle.transcript.specs.ActText.{CanPrintAct};

use crate::job_acts::{job_act, line_act, lock_act};
use crate::parts::{index, number, word};
use crate::server_acts::{counted_act, server_act};
use plain_orders::{Act, Loss, PairEnd};
use std::alloc::Global;
use std::str::SplitWhitespace;
use std::test::*;
use transcript::print_act;

/// A ~ stands for the line's end in front of an entry. An Epoch and a Close are held by a journal, and have no line
/// of their own.
const ACTS: &str = r#"
opened 0 2~entry epoch 1~entry update 2 3 1 7 set ^x 5
opened 0 2~entry epoch 3~entry close 2
opened 1 0
enter 0 open 2 1
enter 0 commit 2 3 1 7
enter 0 rollback 2 3 1 7
enter 0 update 2 3 1 7 set ^x(1) "none"
enter 0 update 2 3 1 7 kill ^x("A",-.5)
enter 0 update 2 3 1 7 add ^x -300
synced 0 2
shut 0 2 trouble 65
shut 1 2 replaced
shut 0 7 round 61
release 0 2
back 1
crash 1 5
met 1 0 2
told 1 0 2 3 4
told 255 255 18446744073709551615 4294967295 18446744073709551615
lose 1 0 reset 9
lose 1 0 expired 1300
lose 1 0 noway 0 1
broke 1 0 app 12
broke 1 0 server 12
mended 1 0
tick 65
died 1
grant 0 2 1 exclusive ^x(1) 4
free 0 2 1 shared ^x
granted 1 7 0 4
granted 65535 4294967295 0 4
giveup 1 7 0 shared ^x
quit 1 7 0 exclusive ^x("A")
counted 1 7 0 6 5
counted 1 7 0 6 -5
notwhole 1 7 0 6
range 1 7 0 6
committed 1 7 0 9
rolledback 1 7 0 12
reached 1 7 0 9
level 1 7 2
done 1 7
refused 1 7 notransaction
refused 1 7 toodeep
refused 1 7 rollbackonly
refused 1 7 locktimeout
refused 1 7 network 0 Recovery reset
refused 1 7 network 1 Trouble expired
refused 1 7 network 0 NotConnected noway
refused 1 7 network 0 Normal reset
issue 1 7 0 4 kill ^x("a""b")
issue 1 7 0 4 commit 2
issue 1 7 0 4 rollback 2
read 1 7 0 11 fetched get ^x 5
read 1 7 0 11 own get ^x(1) none
read 1 7 0 11 cached data ^x 10
read 1 7 0 11 cached next ^x("") "A"
read 1 7 0 11 cached next ^x(1,2.5) ""
"#;

fn loss(words: &mut SplitWhitespace<'_>) -> Result<Loss, Fail> {
    match word(words)? {
        "reset" => Ok(Loss::Reset { at: number(words)? }),
        "expired" => Ok(Loss::Expired {
            time: number(words)?,
        }),
        _ => Ok(Loss::NoWay {
            before: number(words)?,
            after: number(words)?,
        }),
    }
}

/// What an application server hears of its session.
fn session_act(
    kind: &str,
    app: u8,
    server: u8,
    words: &mut SplitWhitespace<'_>,
) -> Result<Act, Fail>
    ensures { IfOk result (λ act. CanPrintAct act) }
{
    let session = number(words)?;
    if kind == "met" {
        return Ok(Act::Met {
            app,
            server,
            session,
        });
    }
    let epoch = word(words)?.parse::<u32>()?;
    Ok(Act::Told {
        app,
        server,
        session,
        epoch,
        kept: number(words)?,
    })
}

/// An act of a session or a connection.
fn link_act(kind: &str, app: u8, words: &mut SplitWhitespace<'_>) -> Result<Act, Fail>
    ensures { IfOk result (λ act. CanPrintAct act) }
{
    let server = index(words)?;
    if kind == "mended" {
        return Ok(Act::Mended { app, server });
    }
    if kind == "lose" {
        return Ok(Act::Lose {
            app,
            server,
            loss: loss(words)?,
        });
    }
    if kind == "broke" {
        let end = if word(words)? == "app" {
            PairEnd::App
        } else {
            PairEnd::Server
        };
        return Ok(Act::Broke {
            app,
            server,
            end,
            time: number(words)?,
        });
    }
    session_act(kind, app, server, words)
}

/// The act that words tell.
fn act(alloc: Global, words: &mut SplitWhitespace<'_>) -> Result<Act, Fail>
    ensures { IfOk result (λ act. CanPrintAct act) }
{
    let kind = word(words)?;
    match kind {
        "tick" => Ok(Act::Tick {
            time: number(words)?,
        }),
        "died" => Ok(Act::Died { app: index(words)? }),
        "met" | "told" | "lose" | "broke" | "mended" => link_act(kind, index(words)?, words),
        "opened" | "enter" | "back" => server_act(alloc, kind, index(words)?, words),
        "synced" | "shut" | "release" | "crash" | "grant" | "free" => {
            counted_act(alloc, kind, index(words)?, words)
        }
        "giveup" | "quit" => lock_act(alloc, kind, words),
        "level" | "done" | "refused" => line_act(kind, words),
        _ => job_act(alloc, kind, words),
    }
}

#[test]
fn each_act_has_its_lines(rt: HostRuntime) -> Result<(), Fail> {
    let alloc = rt.alloc();
    for line in ACTS.lines().filter(|line| !line.is_empty()) {
        let words = line.replace(alloc, '~', " ")?;
        let act = act(alloc, &mut words.split_whitespace())?;
        let mut text = Vec::new(alloc);
        print_act(alloc, &act, &mut text)?;
        let want = format!(in alloc; "{}\n", line.replace(alloc, '~', "\n")?)?;
        assert_eq!(rt; text.as_slice(), want.as_bytes());
    }
    Ok(())
}
