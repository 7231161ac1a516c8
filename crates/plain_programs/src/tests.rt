use super::*;
use plain_orders::{Entry, Op};
use std::alloc::{AllocError, Global};
use std::test::*;
use subscript_keys::{KeyBytes, Span, ValueBytes};

/// What an update does to the node of its row.
#[derive(Clone, Copy)]
enum Change {
    Set(&'static str),
    Kill,
    Add(i64),
}

/// ^A, its subscript 1 and ^B.
const A: &[u8] = b"A\x00";

const A_1: &[u8] = b"A\x00\x30\x41\x02\x00";

const B: &[u8] = b"B\x00";

fn key(alloc: Global, bytes: &[u8]) -> Result<KeyBytes, AllocError> {
    Ok(KeyBytes::from_vec(Vec::from_slice(alloc, bytes)?))
}

fn update(alloc: Global, node: &[u8], change: Change) -> Result<Entry, AllocError> {
    let key = key(alloc, node)?;
    let op = match change {
        Change::Set(text) => Op::Set {
            key,
            value: ValueBytes::from_vec(Vec::from_slice(alloc, text.as_bytes())?),
        },
        Change::Kill => Op::Kill { key },
        Change::Add(amount) => Op::Add { key, amount },
    };
    Ok(Entry::Update {
        session: 2,
        w: 1,
        job: 0,
        txn: 0,
        op,
    })
}

#[test]
fn an_update_touches_spans(rt: HostRuntime) -> Result<(), Fail> {
    let alloc = rt.alloc();
    let rows: [(&[u8], Change, &[u8], &[u8], bool); 9] = [
        (A, Change::Set("x"), A, b"A\x00\xFF", true),
        (A_1, Change::Set("x"), A, b"A\x00\xFF", true),
        (B, Change::Set("x"), A, b"A\x00\xFF", false),
        (A_1, Change::Add(1), b"", A_1, false),
        (A_1, Change::Add(1), A_1, b"\xFF", true),
        (A, Change::Kill, A_1, b"A\x00\x30\x41\x02\x00\x00", true),
        (A_1, Change::Kill, A, b"A\x00\x00", false),
        (A, Change::Kill, b"A\x00\xFF", b"\xFF", false),
        (A, Change::Kill, B, A, false),
    ];
    for (node, change, lo, hi, want) in rows {
        let span = Span {
            lo: key(alloc, lo)?,
            hi: key(alloc, hi)?,
        };
        let entry = update(alloc, node, change)?;
        assert_eq!(rt; touches(&entry, &span), want);
    }
    Ok(())
}

/// An entry to be taken; the Kill is session 2's first item.
#[derive(Clone, Copy)]
enum Step {
    Epoch(u32),
    Open(u64, u8),
    Close(u64),
    Kill(&'static [u8]),
    Commit(u64, u64),
}

fn entry(alloc: Global, step: Step) -> Result<Entry, AllocError> {
    Ok(match step {
        Step::Epoch(number) => Entry::Epoch { number },
        Step::Open(session, app) => Entry::Opened { session, app },
        Step::Close(session) => Entry::Closed { session },
        Step::Kill(node) => update(alloc, node, Change::Kill)?,
        Step::Commit(session, w) => Entry::Commit {
            session,
            w,
            job: 0,
            txn: 1,
        },
    })
}

#[test]
fn an_order_takes_what_may_follow(rt: HostRuntime) -> Result<(), Fail> {
    let alloc = rt.alloc();
    let mut check = OrderCheck::new(alloc);
    let rows = [
        (Step::Open(1, 0), false),
        (Step::Epoch(2), false),
        (Step::Epoch(1), true),
        (Step::Open(2, 0), true),
        (Step::Open(3, 0), false),
        (Step::Open(4, 1), false),
        (Step::Open(3, 1), true),
        (Step::Commit(2, 1), false),
        (Step::Kill(b"A"), false),
        (Step::Kill(b"120"), false),
        (Step::Kill(A_1), true),
        (Step::Kill(A_1), false),
        (Step::Close(2), true),
        (Step::Close(2), false),
        (Step::Open(6, 0), true),
        (Step::Epoch(3), false),
        (Step::Epoch(2), true),
    ];
    for (step, want) in rows {
        assert_eq!(rt; check.next(alloc, &entry(alloc, step)?)?, want);
    }
    assert_eq!(rt; check.into_entries().as_slice().len(), 7);
    Ok(())
}
