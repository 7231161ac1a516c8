use global_store::{GlobalStore, OwedItem};
use plain_orders::{Entry, Op, Sum};
use std::alloc::{AllocError, Global};

/// What entries so far say of a session.
#[derive(Drop)]
struct Row {
    session: u64,
    app: u8,
    count: u64,
    closed_at: Option<u64>,
}

/// The entries so far with their sums, to be looked through, and a row of each session.
#[derive(Drop)]
pub struct Listed {
    entries: Vec<Entry>,
    sums: Vec<Sum>,
    rows: Vec<Row>,
}

/// The session and running number of an item.
fn item_of(entry: &Entry) -> Option<(u64, u64)> {
    match entry {
        Entry::Update { session, w, .. }
        | Entry::Commit { session, w, .. }
        | Entry::Rollback { session, w, .. } => Some((*session, *w)),
        _ => None,
    }
}

/// Whether an item is answered, and as what.
fn owed_item(entry: &Entry) -> Option<OwedItem> {
    match entry {
        Entry::Update { op, .. } => match op {
            Op::Add { .. } => Some(OwedItem::Add),
            _ => None,
        },
        Entry::Commit { .. } => Some(OwedItem::Commit),
        Entry::Rollback { .. } => Some(OwedItem::Rollback),
        _ => None,
    }
}

impl Row {
    /// Whether the store says of the session what the row says.
    fn agrees(&self, store: &GlobalStore) -> bool {
        let live = self.closed_at.is_none();
        store.closed_at(self.session) == self.closed_at
            && store.count(self.session) == self.count
            && store.is_live(self.session) == live
            && store.app_of(self.session) == Some(self.app)
            && store.live_sessions().contains(&self.session) == live
            && (store.live_session(self.app) == Some(self.session)) == live
    }
}

impl Listed {
    pub fn new(alloc: Global) -> Listed {
        Listed {
            entries: Vec::new(alloc),
            sums: Vec::new(alloc),
            rows: Vec::new(alloc),
        }
    }

    pub fn push(&mut self, entry: &Entry, sum: Sum) -> Result<(), AllocError> {
        self.entries.push(entry.clone()?)?;
        self.sums.push(sum)?;
        if let Entry::Opened { session, app } = entry {
            self.rows.push(Row {
                session: *session,
                app: *app,
                count: 0,
                closed_at: None,
            })?;
        }
        let at = self.entries.len() as u64;
        for row in self.rows.iter_mut() {
            match (item_of(entry), entry) {
                (Some((session, w)), _) if session == row.session => row.count = w,
                (_, Entry::Closed { session }) if *session == row.session => {
                    row.closed_at = Some(at);
                }
                _ => {}
            }
        }
        Ok(())
    }

    /// Whether the store says of each session what the list says, of one that was not opened, and of what is owed.
    pub fn agrees(&self, store: &GlobalStore) -> bool {
        store.count(1) == 0
            && !store.is_live(1)
            && self.rows.iter().all(|row| row.agrees(store))
            && self.agrees_on_owed(store)
    }

    /// Whether the store says what the list says of what items of live sessions are owed.
    fn agrees_on_owed(&self, store: &GlobalStore) -> bool {
        let mut at = 0u64;
        for (entry, sum) in self.entries.iter().zip(self.sums.iter()) {
            at = at.saturating_add(1);
            let Some((session, w)) = item_of(entry) else {
                continue;
            };
            let wanted = if store.is_live(session) {
                owed_item(entry)
            } else {
                None
            };
            let agrees = match (store.owed(session, w), wanted) {
                (None, None) => true,
                (Some(owed), Some(item)) => {
                    owed.w == w && owed.at == at && owed.item == item && owed.sum == *sum
                }
                _ => false,
            };
            if !agrees {
                return false;
            }
        }
        true
    }
}
