//! The text of updates.
ghost use Rattle.std.specs.Prelude.{◌≡◌, OnOk};
ghost use Rattle.subscript_keys.specs.Key.{IsKey};
ghost use Rattle.global_text.specs.Printed.{Appends};
ghost use Rattle.transcript.specs.ActText.{IsSetText, IsOpText, IsItemText, CanPrintOp, CanPrintItem};

use crate::key_printer::put_key;
use crate::printer::Printer;
use plain_orders::{Item, Op};
use std::alloc::AllocError;
use subscript_keys::{KeyBytes, ValueBytes};

/// A node is set to a value.
fn put_set(to: &mut Printer, key: &KeyBytes, value: &ValueBytes) -> Result<(), AllocError>
    requires { IsKey key.now }
    ensures { OnOk result (Appends (IsSetText key.now value.now) to.old to.new) }
{
    to.bytes(b"set ")?;
    put_key(to, key)?;
    to.bytes(b" ")?;
    to.value(value)
}

/// What an update does.
pub fn put_op(to: &mut Printer, op: &Op) -> Result<(), AllocError>
    requires { CanPrintOp op.now }
    ensures { OnOk result (Appends (IsOpText op.now) to.old to.new) }
{
    match op {
        Op::Set { key, value } => put_set(to, key, value),
        Op::Kill { key } => {
            to.bytes(b"kill ")?;
            put_key(to, key)
        }
        Op::Add { key, amount } => {
            to.bytes(b"add ")?;
            put_key(to, key)?;
            to.signed_field(*amount)
        }
    }
}

/// What a job issues.
pub fn put_item(to: &mut Printer, item: &Item) -> Result<(), AllocError>
    requires { CanPrintItem item.now }
    ensures { OnOk result (Appends (IsItemText item.now) to.old to.new) }
{
    match item {
        Item::Op(op) => put_op(to, op),
        Item::Commit { txn } => to.words(b"commit", &[u64::from(*txn)]),
        Item::Rollback { txn } => to.words(b"rollback", &[u64::from(*txn)]),
    }
}
