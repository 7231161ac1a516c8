//! Acts about a data server's list.
ghost use Rattle.std.specs.Prelude.{OnOk};
ghost use Rattle.global_text.specs.Printed.{Appends};
ghost use Rattle.transcript.specs.ActText.{IsActText, CanPrintAct};
ghost use Rattle.transcript.specs.ActGroups.{IsListAct};

use crate::entry_printer::put_entry;
use crate::printer::Printer;
use plain_orders::Act;
use std::alloc::AllocError;

/// The first line of an act about a data server's list, without its LF.
pub fn put_list_act(to: &mut Printer, act: &Act) -> Result<(), AllocError>
    requires group { IsListAct act.now }
    requires can { CanPrintAct act.now }
    ensures { OnOk result (Appends (IsActText act.now) to.old to.new) }
{
    match act {
        Act::Opened { server, entries } => {
            let count = entries.as_slice().len() as u64;
            to.words(b"opened", &[u64::from(*server), count])
        }
        Act::Enter { server, entry } => {
            to.words(b"enter", &[u64::from(*server)])?;
            to.bytes(b" ")?;
            put_entry(to, entry)
        }
        Act::Synced { server, length } => to.words(b"synced", &[u64::from(*server), *length]),
        Act::Back { server } => to.words(b"back", &[u64::from(*server)]),
        Act::Crash { server, kept } => to.words(b"crash", &[u64::from(*server), *kept]),
        _ => unreachable!(),
    }
}
