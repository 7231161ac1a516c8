ghost use Rattle.std.specs.Prelude.{◌≡◌, ◌++◌, OnOk, OnErr};
ghost use Rattle.field_bytes.specs.Fields.{BeginsAs};
ghost use Rattle.ecp_messages.specs.Rows.{about_bytes, front_bytes, mode_bytes, wanted_bytes};

use crate::about::About;
use crate::front::Front;
use field_bytes::{put_u8, put_u64};
use plain_orders::Mode;
use std::alloc::AllocError;

/// Appends how a lock is held.
#[tactic(auto, unfolding(crate::specs::Rows::mode_bytes))]
pub(crate) fn put_mode(to: &mut Vec<u8>, mode: Mode) -> Result<(), AllocError>
    ensures ok { OnOk result (to.new.items ≡ to.old.items ++ mode_bytes mode) }
    ensures err { OnErr result (to.new.items ≡ to.old.items) }
{
    match mode {
        Mode::Exclusive => put_u8(to, 1),
        Mode::Shared => put_u8(to, 2),
    }
}

/// Appends whether an Answer is wanted.
#[tactic(auto, unfolding(crate::specs::Rows::wanted_bytes))]
pub(crate) fn put_wanted(to: &mut Vec<u8>, wanted: bool) -> Result<(), AllocError>
    ensures ok { OnOk result (to.new.items ≡ to.old.items ++ wanted_bytes wanted) }
    ensures err { OnErr result (to.new.items ≡ to.old.items) }
{
    if wanted { put_u8(to, 1) } else { put_u8(to, 0) }
}

/// Appends what an Answer tells.
#[tactic(auto, unfolding(crate::specs::Rows::about_bytes))]
pub(crate) fn put_about(to: &mut Vec<u8>, about: About) -> Result<(), AllocError>
    ensures ok { OnOk result (to.new.items ≡ to.old.items ++ about_bytes about) }
    ensures err { OnErr result (to.new.items ≡ to.old.items) }
{
    match about {
        About::Counted => put_u8(to, 1),
        About::NotWhole => put_u8(to, 2),
        About::Range => put_u8(to, 3),
        About::Committed => put_u8(to, 4),
        About::RolledBack => put_u8(to, 5),
        About::Synced => put_u8(to, 6),
    }
}

/// Appends n, w and s. Out of memory, what was held stays in front.
#[tactic(auto, unfolding(crate::specs::Rows::front_bytes))]
pub(crate) fn put_front(to: &mut Vec<u8>, front: Front) -> Result<(), AllocError>
    ensures ok { OnOk result (to.new.items ≡ to.old.items ++ front_bytes front) }
    ensures err { OnErr result (BeginsAs to.old.items to.new.items) }
{
    put_u64(to, front.n)?;
    put_u64(to, front.w)?;
    put_u64(to, front.s)
}
