ghost use Rattle.std.specs.Prelude.{◌≡◌, IfOk};

use crate::nodes::{node_key, sub_of, value_of};
use crate::runs::{Store, next_sub, walk};
use folded_store::PlainStore;
use global_store::entry_fits;
use plain_orders::{Applied, Entry, Op, Sum};
use std::alloc::{AllocError, Global};
use std::test::Fail;
use subscript_keys::{KeyBytes, ValueBytes};

/// What an update does to the node of its row.
#[derive(Clone, Copy)]
enum Change {
    Set(&'static str),
    Kill,
    Add(i64),
}

/// ^A, its subscript 1, ^AB and ^B.
const A: &[u8] = b"A\x00";

const A_1: &[u8] = b"A\x00\x30\x41\x02\x00";

const AB: &[u8] = b"AB\x00";

const B: &[u8] = b"B\x00";

fn key(alloc: Global, bytes: &[u8]) -> Result<KeyBytes, AllocError>
    ensures { IfOk result (λ key. key ≡ bytes.now) }
{
    Ok(KeyBytes::from_vec(Vec::from_slice(alloc, bytes)?))
}

fn apply(alloc: Global, store: &mut PlainStore, entry: &Entry) -> Result<Applied, Fail> {
    if !entry_fits(alloc, entry)? {
        return Err(Fail::from("an entry is past the limits"));
    }
    Ok(store.apply(alloc, entry)?)
}

/// An update of a job of session 2, in its transaction of this number.
fn update(job: u16, txn: u32, op: Op) -> Entry {
    Entry::Update {
        session: 2,
        w: 1,
        job,
        txn,
        op,
    }
}

fn op_of(alloc: Global, node: &[u8], change: Change) -> Result<Op, AllocError> {
    let key = key(alloc, node)?;
    Ok(match change {
        Change::Set(text) => Op::Set {
            key,
            value: ValueBytes::from_vec(Vec::from_slice(alloc, text.as_bytes())?),
        },
        Change::Kill => Op::Kill { key },
        Change::Add(amount) => Op::Add { key, amount },
    })
}

fn make_change(
    alloc: Global,
    store: &mut PlainStore,
    node: &[u8],
    change: Change,
) -> Result<Applied, Fail> {
    let entry = update(0, 0, op_of(alloc, node, change)?);
    apply(alloc, store, &entry)
}

fn holds(alloc: Global, store: &PlainStore, node: &[u8], want: &str) -> Result<bool, AllocError> {
    let key = key(alloc, node)?;
    Ok(match store.get(&key) {
        None => want == "none",
        Some(found) => found.as_slice() == want.as_bytes(),
    })
}

#[test]
fn a_plain_store_answers_what_was_set_killed_and_incremented(rt: HostRuntime) -> Result<(), Fail> {
    let alloc = rt.alloc();
    let mut store = PlainStore::new(alloc);
    let rows = [
        (A, Change::Set("12"), Sum::Nothing, "12", "none"),
        (A, Change::Add(30), Sum::Whole(42), "42", "none"),
        (A_1, Change::Add(-5), Sum::Whole(-5), "42", "-5"),
        (A, Change::Set("0042"), Sum::Nothing, "0042", "-5"),
        (A, Change::Add(1), Sum::NotWhole, "0042", "-5"),
        (
            A,
            Change::Set("999999999999999999"),
            Sum::Nothing,
            "999999999999999999",
            "-5",
        ),
        (A, Change::Add(1), Sum::Range, "999999999999999999", "-5"),
        (B, Change::Kill, Sum::Nothing, "999999999999999999", "-5"),
        (A, Change::Kill, Sum::Nothing, "none", "none"),
    ];
    for (node, done, sum, at_a, at_a_1) in rows {
        let applied = make_change(alloc, &mut store, node, done)?;
        assert_eq!(rt; applied.sum, sum);
        assert_eq!(rt; applied.spans.as_slice().len(), 1);
        assert_eq!(rt; holds(alloc, &store, A, at_a)?, true);
        assert_eq!(rt; holds(alloc, &store, A_1, at_a_1)?, true);
    }
    Ok(())
}

/// What a job does in its first transaction.
#[derive(Clone, Copy)]
enum Doing {
    Changes(&'static [u8], Change),
    Commits,
    RollsBack,
    IsClosed,
}

fn entry_of(alloc: Global, job: u16, doing: Doing) -> Result<Entry, AllocError> {
    Ok(match doing {
        Doing::Changes(node, change) => update(job, 1, op_of(alloc, node, change)?),
        Doing::Commits => Entry::Commit {
            session: 2,
            w: 1,
            job,
            txn: 1,
        },
        Doing::RollsBack => Entry::Rollback {
            session: 2,
            w: 1,
            job,
            txn: 1,
        },
        Doing::IsClosed => Entry::Closed { session: 2 },
    })
}

#[test]
fn a_plain_store_undoes_the_newest_first(rt: HostRuntime) -> Result<(), Fail> {
    let alloc = rt.alloc();
    let mut store = PlainStore::new(alloc);
    make_change(alloc, &mut store, A, Change::Set("0"))?;
    let rows = [
        (0, Doing::Changes(A, Change::Set("1")), 1, "1", "none"),
        (0, Doing::Changes(A_1, Change::Set("2")), 1, "1", "2"),
        (1, Doing::Changes(A_1, Change::Set("3")), 1, "1", "3"),
        (0, Doing::Changes(A, Change::Kill), 1, "none", "none"),
        (0, Doing::Changes(A, Change::Set("4")), 1, "4", "none"),
        (0, Doing::RollsBack, 4, "0", "none"),
        (0, Doing::RollsBack, 0, "0", "none"),
        (1, Doing::Commits, 0, "0", "none"),
        (1, Doing::RollsBack, 0, "0", "none"),
        (0, Doing::Changes(A, Change::Set("5")), 1, "5", "none"),
        (1, Doing::Changes(A, Change::Set("6")), 1, "6", "none"),
        (0, Doing::Changes(A_1, Change::Set("7")), 1, "6", "7"),
        (1, Doing::Changes(A, Change::Kill), 1, "none", "none"),
        (0, Doing::IsClosed, 4, "0", "none"),
        (0, Doing::IsClosed, 0, "0", "none"),
    ];
    for (job, doing, spans, at_a, at_a_1) in rows {
        let entry = entry_of(alloc, job, doing)?;
        let applied = apply(alloc, &mut store, &entry)?;
        assert_eq!(rt; applied.spans.as_slice().len(), spans);
        assert_eq!(rt; holds(alloc, &store, A, at_a)?, true);
        assert_eq!(rt; holds(alloc, &store, A_1, at_a_1)?, true);
    }
    Ok(())
}

#[test]
fn a_plain_store_answers_what_stands_below_a_node(rt: HostRuntime) -> Result<(), Fail> {
    let alloc = rt.alloc();
    let mut store = PlainStore::new(alloc);
    let nodes: [&[u8]; 8] = [
        b"A\x00\x10\x3F\x09\x0B",
        b"A\x00\x10\x3F\x09\x0B\x40x\x00\x01",
        b"A\x00\x20",
        b"A\x00\x30\x41\x03\x00\x30\x41\x02\x00",
        b"A\x00\x30\x42\x02\x00",
        b"A\x00\x40a\x00\x01",
        b"A\x00\x40b\x00\x01\x30\x41\x02\x00",
        b"AB\x00\x30\x41\x02\x00",
    ];
    for node in nodes {
        make_change(alloc, &mut store, node, Change::Set("x"))?;
    }
    let shapes: [(&[u8], u8); 9] = [
        (A, 10),
        (b"A\x00\x10\x3F\x09\x0B", 11),
        (b"A\x00\x20", 1),
        (A_1, 0),
        (b"A\x00\x30\x41\x03\x00", 10),
        (b"A\x00\x40a\x00\x01", 1),
        (b"A\x00\x40b\x00\x01\x30\x41\x02\x00", 1),
        (AB, 10),
        (B, 0),
    ];
    for (node, want) in shapes {
        assert_eq!(rt; store.shape(&key(alloc, node)?), want);
    }
    let rows: [(&[u8], &[u8], &[u8]); 15] = [
        (A, b"", b"\x10\x3F\x09\x0B"),
        (A, b"\x10\x3F\x05\x0B", b"\x10\x3F\x09\x0B"),
        (A, b"\x10\x3F\x09\x0B", b"\x20"),
        (A, b"\x20", b"\x30\x41\x03\x00"),
        (A, b"\x30\x41\x02\x00", b"\x30\x41\x03\x00"),
        (A, b"\x30\x41\x03\x00", b"\x30\x42\x02\x00"),
        (A, b"\x30\x42\x02\x00", b"\x40a\x00\x01"),
        (A, b"\x40a\x00\x01", b"\x40b\x00\x01"),
        (A, b"\x40aa\x00\x01", b"\x40b\x00\x01"),
        (A, b"\x40b\x00\x01", b""),
        (b"A\x00\x30\x41\x03\x00", b"", b"\x30\x41\x02\x00"),
        (b"A\x00\x20", b"", b""),
        (AB, b"", b"\x30\x41\x02\x00"),
        (AB, b"\x30\x41\x02\x00", b""),
        (B, b"", b""),
    ];
    for (parent, behind, want) in rows {
        let found = next_sub(alloc, Store::Plain(&store), &key(alloc, parent)?, behind)?;
        assert_eq!(rt; found, sub_of(alloc, want)?);
    }
    Ok(())
}

#[test]
fn a_plain_store_cuts_its_list_where_a_block_is_full(rt: HostRuntime) -> Result<(), Fail> {
    let alloc = rt.alloc();
    let mut store = PlainStore::new(alloc);
    let mut filled = 0u64;
    // A pair takes 4 bytes, 10 of its key and 150 of its value. A block has at most 8192 bytes: 7, its two edges, which are
    // empty or FF at the ends of all keys and else 10 bytes long, and its pairs; so 49 pairs fit up to the first edge.
    for (many, want) in [(49, &[49][..]), (50, &[49, 1][..]), (81, &[49, 32][..])] {
        for number in filled..many {
            let op = Op::Set {
                key: node_key(alloc, &[number / 9 + 1, number % 9 + 1])?,
                value: value_of(alloc, 150)?,
            };
            apply(alloc, &mut store, &update(0, 0, op))?;
        }
        filled = many;
        let (runs, pairs) = walk(alloc, Store::Plain(&store))?;
        assert!(rt; runs.as_slice() == want, "of {many} pairs");
        assert!(rt; pairs.len() as u64 == many, "{many} pairs");
    }
    Ok(())
}
