//! The text of entries.
ghost use Rattle.std.specs.Prelude.{◌≡◌, OnOk};
ghost use Rattle.std.specs.List.{AllByRecursion};
ghost use Rattle.global_text.specs.Printed.{Appends};
ghost use Rattle.transcript.specs.ActText.{IsEntryText, AreEntryLines, CanPrintEntry};

use crate::op_printer::put_op;
use crate::printer::Printer;
use plain_orders::Entry;
use std::alloc::AllocError;

/// An entry.
pub fn put_entry(to: &mut Printer, entry: &Entry) -> Result<(), AllocError>
    requires { CanPrintEntry entry.now }
    ensures { OnOk result (Appends (IsEntryText entry.now) to.old to.new) }
{
    match entry {
        Entry::Epoch { number } => to.words(b"epoch", &[u64::from(*number)]),
        Entry::Opened { session, app } => to.words(b"open", &[*session, u64::from(*app)]),
        Entry::Closed { session } => to.words(b"close", &[*session]),
        Entry::Update {
            session,
            w,
            job,
            txn,
            op,
        } => {
            to.words(b"update", &[*session, *w, u64::from(*job), u64::from(*txn)])?;
            to.bytes(b" ")?;
            put_op(to, op)
        }
        Entry::Commit {
            session,
            w,
            job,
            txn,
        } => to.words(b"commit", &[*session, *w, u64::from(*job), u64::from(*txn)]),
        Entry::Rollback {
            session,
            w,
            job,
            txn,
        } => to.words(
            b"rollback",
            &[*session, *w, u64::from(*job), u64::from(*txn)],
        ),
    }
}

/// A line for each entry.
pub fn put_entries(to: &mut Printer, entries: &[Entry]) -> Result<(), AllocError>
    requires { AllByRecursion CanPrintEntry entries.now }
    ensures { OnOk result (Appends (AreEntryLines entries.now) to.old to.new) }
{
    for entry in entries {
        to.bytes(b"entry ")?;
        put_entry(to, entry)?;
        to.bytes(b"\n")?;
    }
    Ok(())
}
