ghost use Rattle.std.specs.Prelude.{◌≡◌, ◌<◌, ◌^◌, ◌++◌, length, OnOk, OnErr, IfSome, IfNone};
ghost use Rattle.field_bytes.specs.Fields.{u16_bytes, list_bytes, IsShortList, NoneAhead, BeginsAs};

use crate::number_fields::{put_u16, take_u16};
use std::alloc::AllocError;

/// Appends bytes behind their count as a u16. Out of memory, what was held stays in front.
#[tactic(auto, unfolding(crate::specs::Fields::list_bytes))]
pub fn put_list(to: &mut Vec<u8>, part: &[u8]) -> Result<(), AllocError>
    requires { length part.now < 2 ^ 16 }
    ensures ok { OnOk result (to.new.items ≡ to.old.items ++ list_bytes part.now) }
    ensures err { OnErr result (BeginsAs to.old.items to.new.items) }
{
    put_u16(to, part.len() as u16)?;
    to.extend_from_slice(part)
}

/// Bytes behind their count, and what follows them; none where fewer are left.
#[tactic(auto, unfolding(crate::specs::Fields::list_bytes))]
pub fn take_list(bytes: &[u8]) -> Option<(&[u8], &[u8])>
    ensures some { IfSome result (λ got. bytes.now ≡ list_bytes got.0.now ++ got.1.now) }
    ensures range { IfSome result (λ got. IsShortList got.0.now) }
    ensures none { IfNone result (NoneAhead list_bytes IsShortList bytes.now) }
{
    let Some((count, rest)) = take_u16(bytes) else {
        return None;
    };
    let count = usize::from(count);
    if rest.len() < count {
        return None;
    }
    Some(rest.split_at(count))
}
