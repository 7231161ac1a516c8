use crate::nodes::{node_key, sub_of, value_of};
use crate::runs::{Store, next_sub, walk};
use global_store::{GlobalStore, entry_fits};
use plain_orders::{Applied, Entry, Op, Sum};
use std::alloc::Global;
use std::test::Fail;

/// Applies an entry that is within the limits.
fn apply(alloc: Global, store: &mut GlobalStore, entry: &Entry) -> Result<Applied, Fail> {
    if !entry_fits(alloc, entry)? {
        return Err(Fail::from("an entry is past the limits"));
    }
    Ok(store.apply(alloc, entry)?)
}

/// A store of one session, 2, of application server 0.
fn opened(alloc: Global) -> Result<GlobalStore, Fail> {
    let mut store = GlobalStore::new(alloc)?;
    apply(alloc, &mut store, &Entry::Epoch { number: 1 })?;
    apply(alloc, &mut store, &Entry::Opened { session: 2, app: 0 })?;
    Ok(store)
}

/// The next item of session 2: an update.
fn update(
    alloc: Global,
    store: &mut GlobalStore,
    job: u16,
    txn: u32,
    op: Op,
) -> Result<Applied, Fail> {
    let entry = Entry::Update {
        session: 2,
        w: store.count(2).saturating_add(1),
        job,
        txn,
        op,
    };
    apply(alloc, store, &entry)
}

/// Sets `^g(1)` to `^g(MANY)` to values of 100 bytes.
fn fill(alloc: Global, store: &mut GlobalStore, many: u64) -> Result<(), Fail> {
    for number in 1..many.saturating_add(1) {
        let op = Op::Set {
            key: node_key(alloc, &[number])?,
            value: value_of(alloc, 100)?,
        };
        update(alloc, store, 0, 0, op)?;
    }
    Ok(())
}

#[test]
fn two_thousand_nodes_stand_in_runs_of_a_block(rt: HostRuntime) -> Result<(), Fail> {
    let alloc = rt.alloc();
    let mut store = opened(alloc)?;
    fill(alloc, &mut store, 2000)?;
    let (runs, pairs) = walk(alloc, Store::Global(&store))?;
    let runs = runs.len();
    assert!(rt; runs >= 25 && runs <= 2000, "{runs} runs");
    assert_eq!(rt; pairs.len(), 2000);
    Ok(())
}

#[test]
fn a_kill_of_many_leaves_is_put_back(rt: HostRuntime) -> Result<(), Fail> {
    let alloc = rt.alloc();
    let mut store = opened(alloc)?;
    fill(alloc, &mut store, 1000)?;
    let (_runs, before) = walk(alloc, Store::Global(&store))?;
    let key = node_key(alloc, &[])?;
    update(alloc, &mut store, 0, 1, Op::Kill { key })?;
    assert_eq!(rt; store.len(), 0);
    let end = Entry::Rollback {
        session: 2,
        w: store.count(2).saturating_add(1),
        job: 0,
        txn: 1,
    };
    let applied = apply(alloc, &mut store, &end)?;
    assert_eq!(rt; applied.spans.as_slice().len(), 1);
    let (runs, after) = walk(alloc, Store::Global(&store))?;
    assert!(rt;
        runs.len() > 10 && before.as_slice() == after.as_slice(),
        "the pairs"
    );
    Ok(())
}

#[test]
fn a_close_undoes_the_latest_begun_first(rt: HostRuntime) -> Result<(), Fail> {
    let alloc = rt.alloc();
    let mut store = opened(alloc)?;
    for (job, lengths) in [(0, [1, 2]), (1, [3, 4]), (2, [5, 6])] {
        for length in lengths {
            let op = Op::Set {
                key: node_key(alloc, &[1])?,
                value: value_of(alloc, length)?,
            };
            update(alloc, &mut store, job, 1, op)?;
        }
    }
    let key = node_key(alloc, &[2])?;
    update(alloc, &mut store, 2, 0, Op::Add { key, amount: 5 })?;
    assert_eq!(rt; store.open_txns(2), 3);
    let applied = apply(alloc, &mut store, &Entry::Closed { session: 2 })?;
    assert_eq!(rt; applied.spans.as_slice().len(), 6);
    assert_eq!(rt; store.open_txns(2), 0);
    assert!(rt; store.get(&node_key(alloc, &[1])?).is_none());
    assert!(rt; store.get(&node_key(alloc, &[2])?).is_some());
    assert_eq!(rt; store.len(), 1);
    Ok(())
}

#[test]
fn a_store_answers_what_stands_below_a_node(rt: HostRuntime) -> Result<(), Fail> {
    let alloc = rt.alloc();
    let mut store = opened(alloc)?;
    for (a, b) in [(1, 0), (1, 4), (2, 7)] {
        let op = Op::Add {
            key: if b == 0 {
                node_key(alloc, &[a])?
            } else {
                node_key(alloc, &[a, b])?
            },
            amount: 3,
        };
        let applied = update(alloc, &mut store, 0, 0, op)?;
        assert_eq!(rt; applied.sum, Sum::Whole(3));
    }
    let rows: [(&[u64], &[u8], u8, &[u8]); 7] = [
        (&[], b"", 10, b"\x30\x41\x02\x00"),
        (&[], b"\x30\x41\x02\x00", 10, b"\x30\x41\x03\x00"),
        (&[], b"\x30\x41\x03\x00", 10, b""),
        (&[1], b"", 11, b"\x30\x41\x05\x00"),
        (&[2], b"", 10, b"\x30\x41\x08\x00"),
        (&[1, 4], b"", 1, b""),
        (&[3], b"", 0, b""),
    ];
    for (subs, behind, shape, found) in rows {
        assert_eq!(rt; store.shape(&node_key(alloc, subs)?), shape);
        let next = next_sub(
            alloc,
            Store::Global(&store),
            &node_key(alloc, subs)?,
            behind,
        )?;
        assert_eq!(rt; next, sub_of(alloc, found)?);
    }
    Ok(())
}
