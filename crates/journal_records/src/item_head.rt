ghost use Rattle.std.specs.Prelude.{◌≡◌, ◌++◌, OnOk, OnErr, IfSome, IfNone};
ghost use Rattle.field_bytes.specs.Fields.{BeginsAs};
ghost use Rattle.journal_records.specs.Records.{item_bytes, IsItem, NoItemAhead};

use field_bytes::{put_u16, put_u32, put_u64, take_u16, take_u32, take_u64};
use std::alloc::AllocError;

/// What names an item of a job: its session, its running number there, its job and its transaction, 0
/// being none.
#[derive(Clone, Copy)]
pub struct ItemHead {
    pub session: u64,
    pub w: u64,
    pub job: u16,
    pub txn: u32,
}

impl ItemHead {
    pub fn new(session: u64, w: u64, job: u16, txn: u32) -> ItemHead
        ensures session { result.session ≡ session }
        ensures w { result.w ≡ w }
        ensures job { result.job ≡ job }
        ensures txn { result.txn ≡ txn }
    {
        ItemHead {
            session,
            w,
            job,
            txn,
        }
    }
}

/// Appends the four numbers. After an `Err` what was held stays in front.
#[tactic(auto, unfolding(crate::specs::Records::item_bytes))]
pub fn put_item_head(to: &mut Vec<u8>, head: ItemHead) -> Result<(), AllocError>
    ensures ok { OnOk result
        (to.new.items ≡ to.old.items ++ item_bytes head.session head.w head.job head.txn) }
    ensures err { OnErr result (BeginsAs to.old.items to.new.items) }
{
    put_u64(to, head.session)?;
    put_u64(to, head.w)?;
    put_u16(to, head.job)?;
    put_u32(to, head.txn)
}

/// The four numbers, and what follows them; none where fewer bytes are left.
#[tactic(auto, unfolding(crate::specs::Records::item_bytes))]
pub fn take_item_head(bytes: &[u8]) -> Option<(ItemHead, &[u8])>
    ensures some { IfSome result (λ got.
        bytes.now ≡ item_bytes got.0.session got.0.w got.0.job got.0.txn ++ got.1.now) }
    ensures range { IfSome result (λ got. IsItem got.0.session got.0.w got.0.job got.0.txn) }
    ensures none { IfNone result (NoItemAhead bytes.now) }
{
    let (session, rest) = take_u64(bytes)?;
    let (w, rest) = take_u64(rest)?;
    let (job, rest) = take_u16(rest)?;
    let (txn, rest) = take_u32(rest)?;
    Some((ItemHead::new(session, w, job, txn), rest))
}
