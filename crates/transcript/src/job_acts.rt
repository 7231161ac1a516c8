//! What jobs issue, read and are refused.
ghost use Rattle.std.specs.Prelude.{◌≡◌, ◌++◌, OnOk};
ghost use Rattle.global_text.specs.Printed.{Appends};
ghost use Rattle.transcript.specs.ActText.{refused_text, IsActText, CanPrintAct};
ghost use Rattle.transcript.specs.ActGroups.{IsJobAct};

use crate::op_printer::put_item;
use crate::printer::Printer;
use crate::question_printer::put_question;
use crate::words::{link_word, reason_name_word, via_word};
use plain_orders::{Act, Refused};
use std::alloc::AllocError;

/// A refusal, a data server by its index.
fn put_refused(to: &mut Printer, refused: Refused) -> Result<(), AllocError>
    ensures { OnOk result (to.new ≡ to.old ++ refused_text refused) }
{
    match refused {
        Refused::NoTransaction => to.bytes(b"notransaction"),
        Refused::TooDeep => to.bytes(b"toodeep"),
        Refused::RollbackOnly => to.bytes(b"rollbackonly"),
        Refused::LockTimeout => to.bytes(b"locktimeout"),
        Refused::Network {
            server,
            state,
            reason,
        } => {
            to.words(b"network", &[u64::from(server)])?;
            to.bytes(b" ")?;
            to.bytes(link_word(state))?;
            to.bytes(b" ")?;
            to.bytes(reason_name_word(reason))
        }
    }
}

/// What a job issues, reads or is refused, without the line's LF.
pub fn put_job_act(to: &mut Printer, act: &Act) -> Result<(), AllocError>
    requires group { IsJobAct act.now }
    requires can { CanPrintAct act.now }
    ensures { OnOk result (Appends (IsActText act.now) to.old to.new) }
{
    match act {
        Act::Issue {
            job,
            line,
            server,
            w,
            item,
        } => {
            let numbers = [u64::from(*job), u64::from(*line), u64::from(*server), *w];
            to.words(b"issue", &numbers)?;
            to.bytes(b" ")?;
            put_item(to, item)
        }
        Act::Read {
            job,
            line,
            server,
            at,
            via,
            question,
        } => {
            let numbers = [u64::from(*job), u64::from(*line), u64::from(*server), *at];
            to.words(b"read", &numbers)?;
            to.bytes(b" ")?;
            to.bytes(via_word(*via))?;
            to.bytes(b" ")?;
            put_question(to, question)
        }
        Act::Refused { job, line, refused } => {
            to.words(b"refused", &[u64::from(*job), u64::from(*line)])?;
            to.bytes(b" ")?;
            put_refused(to, *refused)
        }
        _ => unreachable!(),
    }
}
