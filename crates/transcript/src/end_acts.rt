//! Ends of transactions and of waits for the disk, and other answers of jobs.
ghost use Rattle.std.specs.Prelude.{OnOk};
ghost use Rattle.global_text.specs.Printed.{Appends};
ghost use Rattle.transcript.specs.ActText.{IsActText};
ghost use Rattle.transcript.specs.ActGroups.{IsEndAct};

use crate::printer::Printer;
use plain_orders::Act;
use std::alloc::AllocError;

/// An end of a transaction or of a wait for the disk, or another answer of a job, without its LF.
pub fn put_end_act(to: &mut Printer, act: &Act) -> Result<(), AllocError>
    requires { IsEndAct act.now }
    ensures { OnOk result (Appends (IsActText act.now) to.old to.new) }
{
    match act {
        Act::Committed {
            job,
            line,
            server,
            at,
        } => to.words(
            b"committed",
            &[u64::from(*job), u64::from(*line), u64::from(*server), *at],
        ),
        Act::RolledBack {
            job,
            line,
            server,
            at,
        } => to.words(
            b"rolledback",
            &[u64::from(*job), u64::from(*line), u64::from(*server), *at],
        ),
        Act::Reached {
            job,
            line,
            server,
            at,
        } => to.words(
            b"reached",
            &[u64::from(*job), u64::from(*line), u64::from(*server), *at],
        ),
        Act::Level { job, line, level } => {
            to.words(b"level", &[u64::from(*job), u64::from(*line), *level])
        }
        Act::Done { job, line } => to.words(b"done", &[u64::from(*job), u64::from(*line)]),
        _ => unreachable!(),
    }
}
