//! Acts about sessions.
ghost use Rattle.std.specs.Prelude.{◌≡◌, ◌++◌, OnOk};
ghost use Rattle.global_text.specs.Printed.{Appends};
ghost use Rattle.transcript.specs.ActText.{shut_text, loss_text, IsActText};
ghost use Rattle.transcript.specs.ActGroups.{IsSessionAct};

use crate::printer::Printer;
use plain_orders::{Act, Loss, ShutCause};
use std::alloc::AllocError;

/// Why a data server closed a session.
fn put_shut_cause(to: &mut Printer, cause: ShutCause) -> Result<(), AllocError>
    ensures { OnOk result (to.new ≡ to.old ++ shut_text cause) }
{
    match cause {
        ShutCause::Trouble { time } => to.words(b"trouble", &[time]),
        ShutCause::Replaced => to.bytes(b"replaced"),
        ShutCause::Round { time } => to.words(b"round", &[time]),
    }
}

/// How a session was lost, or no connection could be made.
fn put_loss(to: &mut Printer, loss: Loss) -> Result<(), AllocError>
    ensures { OnOk result (to.new ≡ to.old ++ loss_text loss) }
{
    match loss {
        Loss::Reset { at } => to.words(b"reset", &[at]),
        Loss::Expired { time } => to.words(b"expired", &[time]),
        Loss::NoWay { before, after } => to.words(b"noway", &[before, after]),
    }
}

/// An act about a session, without its LF.
pub fn put_session_act(to: &mut Printer, act: &Act) -> Result<(), AllocError>
    requires { IsSessionAct act.now }
    ensures { OnOk result (Appends (IsActText act.now) to.old to.new) }
{
    match act {
        Act::Shut {
            server,
            session,
            cause,
        } => {
            to.words(b"shut", &[u64::from(*server), *session])?;
            to.bytes(b" ")?;
            put_shut_cause(to, *cause)
        }
        Act::Release { server, session } => to.words(b"release", &[u64::from(*server), *session]),
        Act::Met {
            app,
            server,
            session,
        } => to.words(b"met", &[u64::from(*app), u64::from(*server), *session]),
        Act::Told {
            app,
            server,
            session,
            epoch,
            kept,
        } => {
            let (app, server) = (u64::from(*app), u64::from(*server));
            let numbers = [app, server, *session, u64::from(*epoch), *kept];
            to.words(b"told", &numbers)
        }
        Act::Lose { app, server, loss } => {
            to.words(b"lose", &[u64::from(*app), u64::from(*server)])?;
            to.bytes(b" ")?;
            put_loss(to, *loss)
        }
        _ => unreachable!(),
    }
}
