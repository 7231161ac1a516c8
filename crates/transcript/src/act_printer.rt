//! The text of acts.
ghost use Rattle.std.specs.Prelude.{◌≡◌, OnOk, OnErr};
ghost use Rattle.global_text.specs.Printed.{Appends};
ghost use Rattle.transcript.specs.ActText.{IsActText, AreEntryLines, entries_behind, AreActLines, CanPrintAct};

use crate::end_acts::put_end_act;
use crate::entry_printer::put_entries;
use crate::job_acts::put_job_act;
use crate::link_acts::put_link_act;
use crate::list_acts::put_list_act;
use crate::lock_acts::{put_hold_act, put_job_lock_act};
use crate::printer::Printer;
use crate::session_acts::put_session_act;
use crate::sum_acts::put_sum_act;
use plain_orders::Act;
use std::alloc::{AllocError, Global};

/// The first line of an act, without its LF.
fn put_act(to: &mut Printer, act: &Act) -> Result<(), AllocError>
    requires { CanPrintAct act.now }
    ensures { OnOk result (Appends (IsActText act.now) to.old to.new) }
{
    match act {
        Act::Opened { .. }
        | Act::Enter { .. }
        | Act::Synced { .. }
        | Act::Back { .. }
        | Act::Crash { .. } => put_list_act(to, act),
        Act::Shut { .. }
        | Act::Release { .. }
        | Act::Met { .. }
        | Act::Told { .. }
        | Act::Lose { .. } => put_session_act(to, act),
        Act::Broke { .. } | Act::Mended { .. } | Act::Tick { .. } | Act::Died { .. } => {
            put_link_act(to, act)
        }
        Act::Grant { .. } | Act::Free { .. } => put_hold_act(to, act),
        Act::Granted { .. } | Act::GiveUp { .. } | Act::Quit { .. } => put_job_lock_act(to, act),
        Act::Counted { .. } | Act::NotWhole { .. } | Act::Range { .. } => put_sum_act(to, act),
        Act::Committed { .. }
        | Act::RolledBack { .. }
        | Act::Reached { .. }
        | Act::Level { .. }
        | Act::Done { .. } => put_end_act(to, act),
        Act::Issue { .. } | Act::Read { .. } | Act::Refused { .. } => put_job_act(to, act),
    }
}

/// The lines of the entries after the first line of an act.
fn put_entries_behind(to: &mut Printer, act: &Act) -> Result<(), AllocError>
    requires { CanPrintAct act.now }
    ensures { OnOk result (Appends (AreEntryLines (entries_behind act.now)) to.old to.new) }
{
    match act {
        Act::Opened { entries, .. } => put_entries(to, entries.as_slice()),
        _ => Ok(()),
    }
}

/// The lines of an act.
fn put_act_lines(to: &mut Printer, act: &Act) -> Result<(), AllocError>
    requires { CanPrintAct act.now }
    ensures { OnOk result (Appends (AreActLines act.now) to.old to.new) }
{
    put_act(to, act)?;
    to.bytes(b"\n")?;
    put_entries_behind(to, act)
}

/// Appends the line of an act with its LF, and for `opened` a line for each entry. After an `Err` what was there
/// stands.
pub fn print_act(alloc: Global, act: &Act, to: &mut Vec<u8>) -> Result<(), AllocError>
    requires { CanPrintAct act.now }
    ensures ok { OnOk result (Appends (AreActLines act.now) to.old.items to.new.items) }
    ensures err { OnErr result (to.new.items ≡ to.old.items) }
{
    let mut text = Printer::new(alloc);
    put_act_lines(&mut text, act)?;
    to.extend_from_slice(text.as_slice())
}
