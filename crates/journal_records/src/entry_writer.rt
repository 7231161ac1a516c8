ghost use Rattle.std.specs.Prelude.{◌≡◌, ◌++◌, OnOk, OnErr};
ghost use Rattle.field_bytes.specs.Fields.{BeginsAs};
ghost use Rattle.journal_records.specs.Records.{entry_bytes, HasRecordOp, IsRecord};

use crate::item_head::{ItemHead, put_item_head};
use crate::record_kinds::{CLOSED, COMMIT, EPOCH, OPENED, ROLLBACK, UPDATE};
use field_bytes::{put_op, put_u8, put_u32, put_u64};
use plain_orders::Entry;
use std::alloc::AllocError;

/// Appends the record of an entry. After an `Err` what was held stays in front.
fn put_entry(to: &mut Vec<u8>, entry: &Entry) -> Result<(), AllocError>
    requires { HasRecordOp entry.now }
    ensures ok { OnOk result (to.new.items ≡ to.old.items ++ entry_bytes entry.now) }
    ensures is_record { OnOk result (IsRecord entry.now) }
    ensures err { OnErr result (BeginsAs to.old.items to.new.items) }
{
    match entry {
        Entry::Epoch { number } => {
            put_u8(to, EPOCH)?;
            put_u32(to, *number)
        }
        Entry::Opened { session, app } => {
            put_u8(to, OPENED)?;
            put_u64(to, *session)?;
            put_u8(to, *app)
        }
        Entry::Closed { session } => {
            put_u8(to, CLOSED)?;
            put_u64(to, *session)
        }
        Entry::Update {
            session,
            w,
            job,
            txn,
            op,
        } => {
            put_u8(to, UPDATE)?;
            put_item_head(to, ItemHead::new(*session, *w, *job, *txn))?;
            put_op(to, op)
        }
        Entry::Commit {
            session,
            w,
            job,
            txn,
        } => {
            put_u8(to, COMMIT)?;
            put_item_head(to, ItemHead::new(*session, *w, *job, *txn))
        }
        Entry::Rollback {
            session,
            w,
            job,
            txn,
        } => {
            put_u8(to, ROLLBACK)?;
            put_item_head(to, ItemHead::new(*session, *w, *job, *txn))
        }
    }
}

/// Appends the record of an entry. After an `Err` nothing has changed.
pub fn write_entry(entry: &Entry, to: &mut Vec<u8>) -> Result<(), AllocError>
    requires { HasRecordOp entry.now }
    ensures ok { OnOk result (to.new.items ≡ to.old.items ++ entry_bytes entry.now) }
    ensures is_record { OnOk result (IsRecord entry.now) }
    ensures err { OnErr result (to.new.items ≡ to.old.items) }
{
    let length = to.len();
    match put_entry(to, entry) {
        Ok(()) => Ok(()),
        Err(error) => {
            to.truncate(length);
            Err(error)
        }
    }
}
