ghost use Rattle.std.specs.Prelude.{◌≡◌, ◌↔◌, ◌<◌, ◌++◌, Bool, length, IsTrue, IfSome, IfNone};
ghost use Rattle.field_bytes.specs.Fields.{IsU64};
ghost use Rattle.ecp_messages.specs.Rows.{head_bytes, HasSeq};

use field_bytes::{take_u8, take_u64};

/// What stands in front of a message's fields.
#[derive(Clone, Copy)]
pub(crate) struct Head {
    pub(crate) seq: u64,
    pub(crate) ack: u64,
    pub(crate) kind: u8,
}

/// The head of a frame, and what follows it; none where fewer than 17 bytes are left.
pub(crate) fn take_head(body: &[u8]) -> Option<(Head, &[u8])>
    ensures some { IfSome result (λ got.
        body.now ≡ head_bytes got.0.seq got.0.ack got.0.kind ++ got.1.now) }
    ensures seq { IfSome result (λ got. IsU64 got.0.seq) }
    ensures ack { IfSome result (λ got. IsU64 got.0.ack) }
    ensures none { IfNone result (length body.now < 17) }
{
    if body.len() < 17 {
        return None;
    }
    let (seq, rest) = take_u64(body)?;
    let (ack, rest) = take_u64(rest)?;
    let (kind, rest) = take_u8(rest)?;
    Some((Head { seq, ack, kind }, rest))
}

/// Whether a message's number is as the table says: from 1, or 0 where it has none.
pub(crate) fn has_seq(numbered: bool, seq: u64) -> bool
    ensures { IsTrue result ↔ HasSeq numbered seq }
{
    if numbered { seq >= 1 } else { seq == 0 }
}
