use crate::flat::Flat;
use crate::listed::Listed;
use crate::nodes::{long_key, next_number, node_key, one_of, sub_bytes, value_of};
use crate::runs::{Store, next_sub, run_of};
use folded_store::PlainStore;
use global_store::{GlobalStore, entry_fits};
use plain_orders::{Entry, Op};
use plain_programs::OrderCheck;
use std::alloc::{AllocError, Global};
use std::test::Fail;
use subscript_keys::KeyBytes;

/// A node's key by running numbers: mostly of two subscripts, of each seventh one as long as a key may be.
fn random_key(alloc: Global, number: u64, shallow: u64) -> Result<KeyBytes, AllocError> {
    let depth = one_of(number, 40);
    let a = one_of(next_number(number), 12);
    let b = one_of(next_number(next_number(number)), 70);
    if depth < shallow / 8 {
        return node_key(alloc, &[]);
    }
    if depth < shallow {
        return node_key(alloc, &[a]);
    }
    if b % 7 == 0 {
        return long_key(alloc, &[a, b]);
    }
    node_key(alloc, &[a, b])
}

/// An operation by running numbers.
fn random_op(alloc: Global, number: u64) -> Result<Op, AllocError> {
    let what = one_of(number, 100);
    let next = next_number(number);
    if what < 8 {
        return Ok(Op::Kill {
            key: random_key(alloc, next, 16)?,
        });
    }
    let key = random_key(alloc, next, 1)?;
    if what < 25 {
        let amount = if what < 15 {
            99_999_999_999_999_999
        } else {
            -4
        };
        return Ok(Op::Add { key, amount });
    }
    let length = match what {
        25..40 => what.saturating_sub(24),
        40..46 => 3000,
        _ => what.saturating_mul(2),
    };
    Ok(Op::Set {
        key,
        value: value_of(alloc, length)?,
    })
}

/// An entry by running numbers that may follow, most often.
fn random_entry(alloc: Global, store: &GlobalStore, number: u64) -> Result<Entry, AllocError> {
    let what = one_of(number, 200);
    let next = next_number(number);
    let app = one_of(next, 3) as u8;
    let job = one_of(next_number(next), 2) as u16;
    let txn = one_of(next_number(next_number(next)), 4) as u32;
    let Some(session) = store.live_session(app) else {
        if store.last_epoch() == 0 {
            return Ok(Entry::Epoch { number: 1 });
        }
        let session = store.length().saturating_add(1);
        return Ok(Entry::Opened { session, app });
    };
    let w = store.count(session).saturating_add(1);
    if what < 1 {
        let number = store.last_epoch().saturating_add(1);
        return Ok(Entry::Epoch { number });
    }
    if what < 4 {
        return Ok(Entry::Closed { session });
    }
    if what < 14 {
        return Ok(Entry::Commit {
            session,
            w,
            job,
            txn,
        });
    }
    if what < 34 {
        return Ok(Entry::Rollback {
            session,
            w,
            job,
            txn,
        });
    }
    let op = random_op(alloc, next_number(next_number(next)))?;
    let txn = match &op {
        Op::Add { .. } => 0,
        _ => txn,
    };
    Ok(Entry::Update {
        session,
        w,
        job,
        txn,
        op,
    })
}

/// The stores of the same entries.
#[derive(Drop)]
struct Compared {
    store: GlobalStore,
    plain: PlainStore,
    flat: Flat,
    listed: Listed,
}

impl Compared {
    fn new(alloc: Global) -> Result<Compared, AllocError> {
        Ok(Compared {
            store: GlobalStore::new(alloc)?,
            plain: PlainStore::new(alloc),
            flat: Flat::new(alloc),
            listed: Listed::new(alloc),
        })
    }

    /// Whether all do the same with an entry, and the store then says of sessions and items what the list says.
    fn take(&mut self, alloc: Global, entry: &Entry) -> Result<bool, Fail> {
        if !entry_fits(alloc, entry)? {
            return Ok(false);
        }
        let (spans, sum) = self.flat.apply(alloc, entry)?;
        let plain = self.plain.apply(alloc, entry)?;
        let applied = self.store.apply(alloc, entry)?;
        self.listed.push(entry, sum)?;
        let many = self.flat.pairs.len();
        Ok(
            plain.sum == sum
                && applied.sum == sum
                && plain.spans.as_slice() == spans.as_slice()
                && applied.spans.as_slice() == spans.as_slice()
                && self.plain.len() == many
                && self.store.len() == many
                && self.listed.agrees(&self.store),
        )
    }

    /// Whether all say the same of a node's value and of what stands below it.
    fn agree_at(&self, key: &KeyBytes) -> bool {
        let value = self.flat.pairs.get(key);
        let shape = self.flat.shape(key);
        self.plain.get(key) == value
            && self.store.get(key) == value
            && self.plain.shape(key) == shape
            && self.store.shape(key) == shape
    }

    /// Whether all say the same of what comes below a node, behind a subscript or first.
    fn agree_below(&self, alloc: Global, parent: &KeyBytes, behind: &[u8]) -> Result<bool, Fail> {
        let next = self.flat.next_sub(alloc, parent, behind)?;
        let plain = next_sub(alloc, Store::Plain(&self.plain), parent, behind)?;
        let found = next_sub(alloc, Store::Global(&self.store), parent, behind)?;
        Ok(plain == next && found == next)
    }

    /// Whether the runs that hold a key have just the pairs of their spans.
    fn runs_agree(&self, alloc: Global, key: &KeyBytes) -> Result<bool, Fail> {
        let plain = run_of(alloc, Store::Plain(&self.plain), key)?;
        let run = run_of(alloc, Store::Global(&self.store), key)?;
        Ok(self.flat.has_run(&plain) && self.flat.has_run(&run))
    }

    /// Whether all say the same of random nodes.
    fn agree(&self, alloc: Global, number: u64) -> Result<bool, Fail> {
        let key = random_key(alloc, number, 8)?;
        let next = next_number(number);
        let parent = random_key(alloc, next, 39)?;
        let behind = sub_bytes(alloc, one_of(next_number(next), 70))?;
        Ok(
            self.agree_at(&key)
                && self.agree_below(alloc, &parent, &[])?
                && self.agree_below(alloc, &parent, behind.as_slice())?,
        )
    }
}

#[test]
fn the_stores_do_what_a_map_with_logs_does(rt: HostRuntime) -> Result<(), Fail> {
    let alloc = rt.alloc();
    for seed in 0..3 {
        let mut compared = Compared::new(alloc)?;
        let mut order = OrderCheck::new(alloc);
        let mut number = seed;
        for turn in 0..1000 {
            number = next_number(number);
            let entry = random_entry(alloc, &compared.store, number)?;
            if order.next(alloc, &entry)? {
                assert!(rt; compared.take(alloc, &entry)?, "{seed}, {turn}: an entry");
            }
            let next = next_number(number);
            assert!(rt; compared.agree(alloc, next)?, "{seed}, {turn}: a node");
            if turn % 10 == 9 {
                let key = random_key(alloc, next, 8)?;
                assert!(rt; compared.runs_agree(alloc, &key)?, "{seed}, {turn}: runs");
            }
        }
        let many = compared.store.length();
        let pairs = compared.store.len();
        assert!(rt; many > 600, "{seed}: {many} entries, {pairs} pairs");
    }
    Ok(())
}
