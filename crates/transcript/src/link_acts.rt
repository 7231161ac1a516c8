//! Acts about connections, application servers and the time.
ghost use Rattle.std.specs.Prelude.{OnOk};
ghost use Rattle.global_text.specs.Printed.{Appends};
ghost use Rattle.transcript.specs.ActText.{IsActText};
ghost use Rattle.transcript.specs.ActGroups.{IsLinkAct};

use crate::printer::Printer;
use crate::words::end_word;
use plain_orders::Act;
use std::alloc::AllocError;

/// An act about a connection, an application server or the time, without its LF.
pub fn put_link_act(to: &mut Printer, act: &Act) -> Result<(), AllocError>
    requires { IsLinkAct act.now }
    ensures { OnOk result (Appends (IsActText act.now) to.old to.new) }
{
    match act {
        Act::Broke {
            app,
            server,
            end,
            time,
        } => {
            to.words(b"broke", &[u64::from(*app), u64::from(*server)])?;
            to.bytes(b" ")?;
            to.words(end_word(*end), &[*time])
        }
        Act::Mended { app, server } => {
            to.words(b"mended", &[u64::from(*app), u64::from(*server)])
        }
        Act::Tick { time } => to.words(b"tick", &[*time]),
        Act::Died { app } => to.words(b"died", &[u64::from(*app)]),
        _ => unreachable!(),
    }
}
