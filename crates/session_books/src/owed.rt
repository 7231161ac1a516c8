ghost use Rattle.std.specs.Prelude.{◌≡◌};
ghost use Rattle.session_books.specs.Owing.{owed_entry};

use plain_orders::{Entry, Op, Sum};

/// An item that is answered.
#[derive(Clone, Copy, Debug, PartialEq, Eq)]
pub enum OwedItem {
    Add,
    Commit,
    Rollback,
}

/// What an item of a session is owed: where its entry stands, the first being at 1, and its sum, if it is an increment.
#[derive(Clone, Copy, Debug, PartialEq, Eq)]
pub struct Owed {
    pub w: u64,
    pub at: u64,
    pub item: OwedItem,
    pub sum: Sum,
}

/// What the entry at this place is owed, if it is an item that is answered.
pub fn owed_entry(entry: &Entry, at: u64, sum: Sum) -> Option<Owed>
    ensures { result ≡ owed_entry entry.now at sum }
{
    let (w, item) = match entry {
        Entry::Update {
            w,
            op: Op::Add { .. },
            ..
        } => (*w, OwedItem::Add),
        Entry::Commit { w, .. } => (*w, OwedItem::Commit),
        Entry::Rollback { w, .. } => (*w, OwedItem::Rollback),
        _ => return None,
    };
    Some(Owed { w, at, item, sum })
}
