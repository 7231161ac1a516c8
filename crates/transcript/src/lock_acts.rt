//! Acts about locks.
ghost use Rattle.std.specs.Prelude.{OnOk};
ghost use Rattle.global_text.specs.Printed.{Appends};
ghost use Rattle.transcript.specs.ActText.{IsActText, CanPrintAct};
ghost use Rattle.transcript.specs.ActGroups.{IsHoldAct, IsJobLockAct};

use crate::key_printer::put_lock;
use crate::printer::Printer;
use plain_orders::Act;
use std::alloc::AllocError;

/// A lock is granted at its data server, or a hold goes there, without the line's LF.
pub fn put_hold_act(to: &mut Printer, act: &Act) -> Result<(), AllocError>
    requires group { IsHoldAct act.now }
    requires can { CanPrintAct act.now }
    ensures { OnOk result (Appends (IsActText act.now) to.old to.new) }
{
    match act {
        Act::Grant {
            server,
            session,
            job,
            mode,
            key,
            at,
        } => {
            to.words(b"grant", &[u64::from(*server), *session, u64::from(*job)])?;
            to.bytes(b" ")?;
            put_lock(to, *mode, key)?;
            to.field(*at)
        }
        Act::Free {
            server,
            session,
            job,
            mode,
            key,
        } => {
            to.words(b"free", &[u64::from(*server), *session, u64::from(*job)])?;
            to.bytes(b" ")?;
            put_lock(to, *mode, key)
        }
        _ => unreachable!(),
    }
}

/// A grant reaches its job, or a job gives up a hold or a request, without the line's LF.
pub fn put_job_lock_act(to: &mut Printer, act: &Act) -> Result<(), AllocError>
    requires group { IsJobLockAct act.now }
    requires can { CanPrintAct act.now }
    ensures { OnOk result (Appends (IsActText act.now) to.old to.new) }
{
    match act {
        Act::Granted {
            job,
            line,
            server,
            at,
        } => to.words(
            b"granted",
            &[u64::from(*job), u64::from(*line), u64::from(*server), *at],
        ),
        Act::GiveUp {
            job,
            line,
            server,
            mode,
            key,
        } => {
            let numbers = [u64::from(*job), u64::from(*line), u64::from(*server)];
            to.words(b"giveup", &numbers)?;
            to.bytes(b" ")?;
            put_lock(to, *mode, key)
        }
        Act::Quit {
            job,
            line,
            server,
            mode,
            key,
        } => {
            let numbers = [u64::from(*job), u64::from(*line), u64::from(*server)];
            to.words(b"quit", &numbers)?;
            to.bytes(b" ")?;
            put_lock(to, *mode, key)
        }
        _ => unreachable!(),
    }
}
