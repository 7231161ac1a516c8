ghost use Rattle.std.specs.Prelude.{◌≡◌, ◌++◌, OnOk, OnErr};
ghost use Rattle.std.specs.List.{AllByRecursion};
ghost use Rattle.field_bytes.specs.Fields.{BeginsAs, HasShortLists, IsShortList};
ghost use Rattle.ecp_messages.specs.declared.up.Up.{Up};
ghost use Rattle.ecp_messages.specs.Rows.{row_bytes, IsField};
ghost use Rattle.ecp_messages.specs.Ups.{up_row};

use crate::field_putters::{put_mode, put_wanted};
use crate::up::Up;
use field_bytes::{put_i64, put_list, put_op, put_u8, put_u16, put_u32, put_u64};
use plain_orders::{Mode, Op};
use std::alloc::AllocError;
use subscript_keys::KeyBytes;

/// Appends a Hello.
fn put_hello(to: &mut Vec<u8>, app: u8, dial: u32) -> Result<(), AllocError>
    ensures ok { OnOk result
        (to.new.items ≡ to.old.items ++ row_bytes (up_row (Up.Hello app dial))) }
    ensures err { OnErr result (BeginsAs to.old.items to.new.items) }
{
    put_u8(to, 0x01)?;
    put_u8(to, 1)?;
    put_u8(to, app)?;
    put_u32(to, dial)
}

/// Appends a Recover.
fn put_recover(
    to: &mut Vec<u8>,
    app: u8,
    session: u64,
    epoch: u32,
    taken: u64,
    dial: u32,
) -> Result<(), AllocError>
    ensures ok { OnOk result (to.new.items ≡ to.old.items ++
        row_bytes (up_row (Up.Recover app session epoch taken dial))) }
    ensures err { OnErr result (BeginsAs to.old.items to.new.items) }
{
    put_u8(to, 0x02)?;
    put_u8(to, app)?;
    put_u64(to, session)?;
    put_u32(to, epoch)?;
    put_u64(to, taken)?;
    put_u32(to, dial)
}

/// Appends an Update.
fn put_update(to: &mut Vec<u8>, w: u64, job: u16, txn: u32, op: &Op) -> Result<(), AllocError>
    requires { HasShortLists op.now }
    ensures ok { OnOk result (to.new.items ≡ to.old.items ++
        row_bytes (up_row (Up.Update w job txn op.now))) }
    ensures err { OnErr result (BeginsAs to.old.items to.new.items) }
{
    put_u8(to, 0x03)?;
    put_u64(to, w)?;
    put_u16(to, job)?;
    put_u32(to, txn)?;
    put_op(to, op)
}

/// Appends an Add.
fn put_add(
    to: &mut Vec<u8>,
    w: u64,
    job: u16,
    key: &KeyBytes,
    amount: i64,
) -> Result<(), AllocError>
    requires { IsShortList key.now }
    ensures ok { OnOk result (to.new.items ≡ to.old.items ++
        row_bytes (up_row (Up.Add w job key.now amount))) }
    ensures err { OnErr result (BeginsAs to.old.items to.new.items) }
{
    put_u8(to, 0x04)?;
    put_u64(to, w)?;
    put_u16(to, job)?;
    put_list(to, key.as_slice())?;
    put_i64(to, amount)
}

/// Appends a Fetch.
fn put_fetch(to: &mut Vec<u8>, key: &KeyBytes) -> Result<(), AllocError>
    requires { IsShortList key.now }
    ensures ok { OnOk result (to.new.items ≡ to.old.items ++
        row_bytes (up_row (Up.Fetch key.now))) }
    ensures err { OnErr result (BeginsAs to.old.items to.new.items) }
{
    put_u8(to, 0x05)?;
    put_list(to, key.as_slice())
}

/// Appends an Ask.
fn put_ask(
    to: &mut Vec<u8>,
    ticket: u32,
    job: u16,
    mode: Mode,
    key: &KeyBytes,
) -> Result<(), AllocError>
    requires { IsShortList key.now }
    ensures ok { OnOk result (to.new.items ≡ to.old.items ++
        row_bytes (up_row (Up.Ask ticket job mode key.now))) }
    ensures err { OnErr result (BeginsAs to.old.items to.new.items) }
{
    put_u8(to, 0x06)?;
    put_u32(to, ticket)?;
    put_u16(to, job)?;
    put_mode(to, mode)?;
    put_list(to, key.as_slice())
}

/// Appends an Unlock.
fn put_unlock(to: &mut Vec<u8>, job: u16, mode: Mode, key: &KeyBytes) -> Result<(), AllocError>
    requires { IsShortList key.now }
    ensures ok { OnOk result (to.new.items ≡ to.old.items ++
        row_bytes (up_row (Up.Unlock job mode key.now))) }
    ensures err { OnErr result (BeginsAs to.old.items to.new.items) }
{
    put_u8(to, 0x07)?;
    put_u16(to, job)?;
    put_mode(to, mode)?;
    put_list(to, key.as_slice())
}

/// Appends a Cancel.
fn put_cancel(to: &mut Vec<u8>, ticket: u32) -> Result<(), AllocError>
    ensures ok { OnOk result (to.new.items ≡ to.old.items ++
        row_bytes (up_row (Up.Cancel ticket))) }
    ensures err { OnErr result (BeginsAs to.old.items to.new.items) }
{
    put_u8(to, 0x08)?;
    put_u32(to, ticket)
}

/// Appends a Commit.
fn put_commit(to: &mut Vec<u8>, w: u64, job: u16, txn: u32, wanted: bool) -> Result<(), AllocError>
    ensures ok { OnOk result (to.new.items ≡ to.old.items ++
        row_bytes (up_row (Up.Commit w job txn wanted))) }
    ensures err { OnErr result (BeginsAs to.old.items to.new.items) }
{
    put_u8(to, 0x09)?;
    put_u64(to, w)?;
    put_u16(to, job)?;
    put_u32(to, txn)?;
    put_wanted(to, wanted)
}

/// Appends a Rollback.
fn put_rollback(to: &mut Vec<u8>, w: u64, job: u16, txn: u32) -> Result<(), AllocError>
    ensures ok { OnOk result (to.new.items ≡ to.old.items ++
        row_bytes (up_row (Up.Rollback w job txn))) }
    ensures err { OnErr result (BeginsAs to.old.items to.new.items) }
{
    put_u8(to, 0x0A)?;
    put_u64(to, w)?;
    put_u16(to, job)?;
    put_u32(to, txn)
}

/// Appends a Sync.
fn put_sync(to: &mut Vec<u8>, ticket: u32) -> Result<(), AllocError>
    ensures ok { OnOk result (to.new.items ≡ to.old.items ++
        row_bytes (up_row (Up.Sync ticket))) }
    ensures err { OnErr result (BeginsAs to.old.items to.new.items) }
{
    put_u8(to, 0x0B)?;
    put_u32(to, ticket)
}

/// Appends a Claim.
fn put_claim(
    to: &mut Vec<u8>,
    job: u16,
    mode: Mode,
    count: u32,
    at: u64,
    key: &KeyBytes,
) -> Result<(), AllocError>
    requires { IsShortList key.now }
    ensures ok { OnOk result (to.new.items ≡ to.old.items ++
        row_bytes (up_row (Up.Claim job mode count at key.now))) }
    ensures err { OnErr result (BeginsAs to.old.items to.new.items) }
{
    put_u8(to, 0x0D)?;
    put_u16(to, job)?;
    put_mode(to, mode)?;
    put_u32(to, count)?;
    put_u64(to, at)?;
    put_list(to, key.as_slice())
}

/// Appends a message: its kind and its fields. Out of memory, what was held stays in front.
pub(crate) fn put_up(to: &mut Vec<u8>, message: &Up) -> Result<(), AllocError>
    requires { AllByRecursion IsField (up_row message.now).fields }
    ensures ok { OnOk result (to.new.items ≡ to.old.items ++ row_bytes (up_row message.now)) }
    ensures err { OnErr result (BeginsAs to.old.items to.new.items) }
{
    match message {
        Up::Hello { app, dial } => put_hello(to, *app, *dial),
        Up::Recover {
            app,
            session,
            epoch,
            taken,
            dial,
        } => put_recover(to, *app, *session, *epoch, *taken, *dial),
        Up::Update { w, job, txn, op } => put_update(to, *w, *job, *txn, op),
        Up::Add {
            w,
            job,
            key,
            amount,
        } => put_add(to, *w, *job, key, *amount),
        Up::Fetch { key } => put_fetch(to, key),
        Up::Ask {
            ticket,
            job,
            mode,
            key,
        } => put_ask(to, *ticket, *job, *mode, key),
        Up::Unlock { job, mode, key } => put_unlock(to, *job, *mode, key),
        Up::Cancel { ticket } => put_cancel(to, *ticket),
        Up::Commit {
            w,
            job,
            txn,
            wanted,
        } => put_commit(to, *w, *job, *txn, *wanted),
        Up::Rollback { w, job, txn } => put_rollback(to, *w, *job, *txn),
        Up::Sync { ticket } => put_sync(to, *ticket),
        Up::Done => put_u8(to, 0x0C),
        Up::Claim {
            job,
            mode,
            count,
            at,
            key,
        } => put_claim(to, *job, *mode, *count, *at, key),
        Up::Bare => put_u8(to, 0x7F),
    }
}
