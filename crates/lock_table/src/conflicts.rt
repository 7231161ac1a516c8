ghost use Rattle.std.specs.Prelude.{◌≡◌};
ghost use Rattle.plain_orders.specs.Conflict.{modes_conflict, names_overlap, is_conflict};
ghost use Rattle.lock_table.specs.LockWords.{is_same_who, is_same_mode, is_lane, is_barred};

use crate::rows::{Hold, Who};
use plain_orders::Mode;
use subscript_keys::KeyBytes;

/// Whether two holds can't stand beside each other: their holders differ, a mode is exclusive, and the names are
/// equal or one is an ancestor of the other. It takes no memory.
pub fn conflict(a: &Hold, b: &Hold) -> bool
    ensures { result ≡ is_barred a.now.who a.now.name a.now.mode b.now }
{
    is_barred(a.who, &a.name, a.mode, b)
}

/// Whether a hold of another holder conflicts with this name in this mode.
pub fn is_barred(who: Who, name: &KeyBytes, mode: Mode, hold: &Hold) -> bool
    ensures { result ≡ is_barred who name.now mode hold.now }
{
    !is_same_who(who, hold.who) && is_conflict(mode, name, hold.mode, &hold.name)
}

/// Whether a hold is a holder's, of this name in this mode.
pub fn is_lane(who: Who, name: &KeyBytes, mode: Mode, hold: &Hold) -> bool
    ensures { result ≡ is_lane who name.now mode hold.now }
{
    is_same_who(who, hold.who) && *name == hold.name && is_same_mode(mode, hold.mode)
}

/// Whether two are the same job in the same session.
pub fn is_same_who(a: Who, b: Who) -> bool
    ensures { result ≡ is_same_who a b }
{
    a.session == b.session && a.job == b.job
}

pub fn is_same_mode(a: Mode, b: Mode) -> bool
    ensures { result ≡ is_same_mode a b }
{
    match (a, b) {
        (Mode::Exclusive, Mode::Exclusive) | (Mode::Shared, Mode::Shared) => true,
        (Mode::Exclusive, Mode::Shared) | (Mode::Shared, Mode::Exclusive) => false,
    }
}

/// Whether two locks of different holders conflict.
pub fn is_conflict(mode: Mode, name: &KeyBytes, other_mode: Mode, other_name: &KeyBytes) -> bool
    ensures { result ≡ is_conflict mode name.now other_mode other_name.now }
{
    if is_same_mode(mode, Mode::Shared) && is_same_mode(other_mode, Mode::Shared) {
        return false;
    }
    let bytes = name.as_slice();
    let other_bytes = other_name.as_slice();
    other_bytes.starts_with(bytes) || bytes.starts_with(other_bytes)
}
