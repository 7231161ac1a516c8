use block_bytes::write_block;
use block_tree::is_before_end;
use folded_store::PlainStore;
use global_store::GlobalStore;
use std::alloc::Global;
use std::test::Fail;
use subscript_keys::{KeyBytes, Pair, Run, Span, Sub, decode, take_sub};

/// A store that is asked.
#[derive(Clone, Copy)]
pub enum Store<'a> {
    Global(&'a GlobalStore),
    Plain(&'a PlainStore),
}

/// The run that holds this key, which a block holds.
pub fn run_of(alloc: Global, store: Store<'_>, key: &KeyBytes) -> Result<Run, Fail> {
    if !is_before_end(key) {
        return Err(Fail::from("a key is behind all"));
    }
    let run = match store {
        Store::Global(store) => store.run_for(key)?,
        Store::Plain(store) => store.run_for(key)?,
    };
    write_block(alloc, &run)?;
    Ok(run)
}

/// The run that begins at this key.
fn run_at(alloc: Global, store: Store<'_>, key: &KeyBytes) -> Result<Run, Fail> {
    let run = run_of(alloc, store, key)?;
    if run.span.lo != *key {
        return Err(Fail::from("a run doesn't begin where the one before ends"));
    }
    Ok(run)
}

/// The next subscript below the node with this key, behind the one that stands in these bytes, or the first.
pub fn next_sub(
    alloc: Global,
    store: Store<'_>,
    parent: &KeyBytes,
    behind: &[u8],
) -> Result<Option<Sub>, Fail> {
    let Ok(_node) = decode(alloc, parent.as_slice()) else {
        return Err(Fail::from("no node has this key"));
    };
    let taken = take_sub(alloc, behind)?;
    let sub = match &taken {
        None => None,
        Some((sub, _rest)) => Some(sub),
    };
    Ok(match store {
        Store::Global(store) => store.next_sub(alloc, parent, sub)?,
        Store::Plain(store) => store.next_sub(alloc, parent, sub)?,
    })
}

/// All pairs, run by run from the empty key, and how many there are of each run.
pub fn walk(alloc: Global, store: Store<'_>) -> Result<(Vec<usize>, Vec<Pair>), Fail> {
    let mut runs = Vec::new(alloc);
    let mut all = Vec::new(alloc);
    let mut key = KeyBytes::from_vec(Vec::new(alloc));
    for _ in 0..100_000 {
        if !is_before_end(&key) {
            break;
        }
        let Run { span, pairs } = run_at(alloc, store, &key)?;
        let pairs = pairs.into_vec();
        runs.push(pairs.len())?;
        for pair in pairs {
            all.push(pair)?;
        }
        let Span { hi, .. } = span;
        key = hi;
    }
    Ok((runs, all))
}
