//! Answers to increments.
ghost use Rattle.std.specs.Prelude.{OnOk};
ghost use Rattle.global_text.specs.Printed.{Appends};
ghost use Rattle.transcript.specs.ActText.{IsActText};
ghost use Rattle.transcript.specs.ActGroups.{IsSumAct};

use crate::printer::Printer;
use plain_orders::Act;
use std::alloc::AllocError;

/// The answer to an increment, without the line's LF.
pub fn put_sum_act(to: &mut Printer, act: &Act) -> Result<(), AllocError>
    requires { IsSumAct act.now }
    ensures { OnOk result (Appends (IsActText act.now) to.old to.new) }
{
    match act {
        Act::Counted {
            job,
            line,
            server,
            at,
            sum,
        } => {
            to.words(
                b"counted",
                &[u64::from(*job), u64::from(*line), u64::from(*server), *at],
            )?;
            to.signed_field(*sum)
        }
        Act::NotWhole {
            job,
            line,
            server,
            at,
        } => to.words(
            b"notwhole",
            &[u64::from(*job), u64::from(*line), u64::from(*server), *at],
        ),
        Act::Range {
            job,
            line,
            server,
            at,
        } => to.words(
            b"range",
            &[u64::from(*job), u64::from(*line), u64::from(*server), *at],
        ),
        _ => unreachable!(),
    }
}
