ghost use Rattle.std.specs.Prelude.{◌≡◌, ◌++◌, OnOk, OnErr};
ghost use Rattle.std.specs.List.{AllByRecursion};
ghost use Rattle.field_bytes.specs.Fields.{BeginsAs, IsShortList};
ghost use Rattle.ecp_messages.specs.declared.down.Down.{Down};
ghost use Rattle.ecp_messages.specs.Downs.{down_row};
ghost use Rattle.ecp_messages.specs.Rows.{row_bytes, IsField};

use crate::about::About;
use crate::block_part::BlockPart;
use crate::down::Down;
use crate::field_putters::{put_about, put_front};
use crate::front::Front;
use field_bytes::{put_i64, put_list, put_u8, put_u16, put_u32, put_u64};
use std::alloc::AllocError;
use subscript_keys::KeyBytes;

/// Appends a Welcome.
fn put_welcome(
    to: &mut Vec<u8>,
    session: u64,
    epoch: u32,
    kept: u64,
    front: Front,
    taken: u64,
) -> Result<(), AllocError>
    ensures ok { OnOk result (to.new.items ≡ to.old.items ++
        row_bytes (down_row (Down.Welcome session epoch kept front taken))) }
    ensures err { OnErr result (BeginsAs to.old.items to.new.items) }
{
    put_u8(to, 0x81)?;
    put_u64(to, session)?;
    put_u32(to, epoch)?;
    put_u64(to, kept)?;
    put_front(to, front)?;
    put_u64(to, taken)
}

/// Appends a Reset.
fn put_reset(to: &mut Vec<u8>, session: u64, at: u64) -> Result<(), AllocError>
    ensures ok { OnOk result (to.new.items ≡ to.old.items ++
        row_bytes (down_row (Down.Reset session at))) }
    ensures err { OnErr result (BeginsAs to.old.items to.new.items) }
{
    put_u8(to, 0x82)?;
    put_u64(to, session)?;
    put_u64(to, at)
}

/// Appends a Block.
fn put_block(to: &mut Vec<u8>, front: Front, block: &BlockPart) -> Result<(), AllocError>
    requires { IsShortList block.now }
    ensures ok { OnOk result (to.new.items ≡ to.old.items ++
        row_bytes (down_row (Down.Block front block.now))) }
    ensures err { OnErr result (BeginsAs to.old.items to.new.items) }
{
    put_u8(to, 0x83)?;
    put_front(to, front)?;
    put_list(to, block.as_slice())
}

/// Appends a Drop.
fn put_drop(to: &mut Vec<u8>, front: Front, lo: &KeyBytes, hi: &KeyBytes) -> Result<(), AllocError>
    requires lo { IsShortList lo.now }
    requires hi { IsShortList hi.now }
    ensures ok { OnOk result (to.new.items ≡ to.old.items ++
        row_bytes (down_row (Down.Drop front lo.now hi.now))) }
    ensures err { OnErr result (BeginsAs to.old.items to.new.items) }
{
    put_u8(to, 0x84)?;
    put_front(to, front)?;
    put_list(to, lo.as_slice())?;
    put_list(to, hi.as_slice())
}

/// Appends an Ack.
fn put_ack(to: &mut Vec<u8>, front: Front) -> Result<(), AllocError>
    ensures ok { OnOk result (to.new.items ≡ to.old.items ++
        row_bytes (down_row (Down.Ack front))) }
    ensures err { OnErr result (BeginsAs to.old.items to.new.items) }
{
    put_u8(to, 0x85)?;
    put_front(to, front)
}

/// Appends a Grant.
fn put_grant(to: &mut Vec<u8>, front: Front, ticket: u32, at: u64) -> Result<(), AllocError>
    ensures ok { OnOk result (to.new.items ≡ to.old.items ++
        row_bytes (down_row (Down.Grant front ticket at))) }
    ensures err { OnErr result (BeginsAs to.old.items to.new.items) }
{
    put_u8(to, 0x86)?;
    put_front(to, front)?;
    put_u32(to, ticket)?;
    put_u64(to, at)
}

/// Appends an Answer.
fn put_answer(
    to: &mut Vec<u8>,
    front: Front,
    about: About,
    job: u16,
    number: u64,
    at: u64,
    sum: i64,
) -> Result<(), AllocError>
    ensures ok { OnOk result (to.new.items ≡ to.old.items ++
        row_bytes (down_row (Down.Answer front about job number at sum))) }
    ensures err { OnErr result (BeginsAs to.old.items to.new.items) }
{
    put_u8(to, 0x87)?;
    put_front(to, front)?;
    put_about(to, about)?;
    put_u16(to, job)?;
    put_u64(to, number)?;
    put_u64(to, at)?;
    put_i64(to, sum)
}

/// Appends a Normal.
fn put_normal(to: &mut Vec<u8>, front: Front) -> Result<(), AllocError>
    ensures ok { OnOk result (to.new.items ≡ to.old.items ++
        row_bytes (down_row (Down.Normal front))) }
    ensures err { OnErr result (BeginsAs to.old.items to.new.items) }
{
    put_u8(to, 0x88)?;
    put_front(to, front)
}

/// Appends a message: its kind and its fields. Out of memory, what was held stays in front.
pub(crate) fn put_down(to: &mut Vec<u8>, message: &Down) -> Result<(), AllocError>
    requires { AllByRecursion IsField (down_row message.now).fields }
    ensures ok { OnOk result (to.new.items ≡ to.old.items ++ row_bytes (down_row message.now)) }
    ensures err { OnErr result (BeginsAs to.old.items to.new.items) }
{
    match message {
        Down::Welcome {
            session,
            epoch,
            kept,
            front,
            taken,
        } => put_welcome(to, *session, *epoch, *kept, *front, *taken),
        Down::Reset { session, at } => put_reset(to, *session, *at),
        Down::Block { front, block } => put_block(to, *front, block),
        Down::Drop { front, lo, hi } => put_drop(to, *front, lo, hi),
        Down::Ack { front } => put_ack(to, *front),
        Down::Grant { front, ticket, at } => put_grant(to, *front, *ticket, *at),
        Down::Answer {
            front,
            about,
            job,
            number,
            at,
            sum,
        } => put_answer(to, *front, *about, *job, *number, *at, *sum),
        Down::Normal { front } => put_normal(to, *front),
        Down::Bare => put_u8(to, 0x7F),
    }
}
