use block_bytes::write_block;
use block_tree::{BlockTree, is_before_end};
use std::alloc::{AllocError, Global};
use std::collections::BTreeMap;
use std::ops::Bound;
use std::test::Fail;
use subscript_keys::{KEY_LIMIT, KeyBytes, Run, Span, VALUE_LIMIT, ValueBytes};

/// A tree, and a map that gets the same calls.
#[derive(Drop)]
struct Both {
    tree: BlockTree,
    map: BTreeMap<KeyBytes, ValueBytes>,
}

/// A running number behind this one.
fn next_number(number: u64) -> u64 {
    number
        .wrapping_mul(6_364_136_223_846_793_005)
        .wrapping_add(1_442_695_040_888_963_407)
}

/// One of so many by a running number.
fn one_of(number: u64, many: u64) -> u64 {
    if many == 0 {
        return 0;
    }
    (number / 8_589_934_592) % many
}

/// The key of a number, in the order of the numbers; of each seventh number, one of 500 bytes.
fn key_of(alloc: Global, number: u64) -> Result<KeyBytes, AllocError> {
    let mut bytes = Vec::new(alloc);
    bytes.push(103)?;
    bytes.extend_from_slice(&number.to_be_bytes())?;
    if number % 7 == 0 {
        for _ in 0..491 {
            bytes.push(32)?;
        }
    }
    Ok(KeyBytes::from_vec(bytes))
}

/// A value of so many bytes.
fn value_of(alloc: Global, length: u64) -> Result<ValueBytes, AllocError> {
    let mut bytes = Vec::new(alloc);
    for _ in 0..length {
        bytes.push(7)?;
    }
    Ok(ValueBytes::from_vec(bytes))
}

fn span_of(alloc: Global, from: u64, to: u64) -> Result<Span, AllocError> {
    Ok(Span {
        lo: key_of(alloc, from)?,
        hi: key_of(alloc, to)?,
    })
}

impl Both {
    fn new(alloc: Global) -> Result<Both, AllocError> {
        Ok(Both {
            tree: BlockTree::new(alloc)?,
            map: BTreeMap::new(alloc),
        })
    }
}

/// Whether both answer the same old value.
fn set(both: &mut Both, key: KeyBytes, value: ValueBytes) -> Result<bool, Fail> {
    if key.as_slice().len() > KEY_LIMIT || value.as_slice().len() > VALUE_LIMIT {
        return Err(Fail::from("a key or a value is too long"));
    }
    if !is_before_end(&key) {
        return Err(Fail::from("a key is behind all"));
    }
    let other = both.map.insert(key.clone()?, value.clone()?)?;
    let old = both.tree.set(key, value)?;
    Ok(old == other)
}

/// Whether the tree answers pairs that the map has, which go there too, and all of them.
fn kill(both: &mut Both, span: &Span) -> Result<bool, Fail> {
    let removed = both.tree.kill_span(span)?;
    for pair in removed.as_slice() {
        match both.map.remove(&pair.key) {
            Some(value) if value == pair.value => {}
            _ => return Ok(false),
        }
    }
    Ok(both.tree.len() == both.map.len())
}

/// Whether both have the same value at the key, and the same pair above it.
fn look(both: &Both, key: &KeyBytes) -> bool {
    if both.tree.get(key) != both.map.get(key) {
        return false;
    }
    let other = both
        .map
        .range((Bound::Excluded(key), Bound::Unbounded))
        .next();
    match (both.tree.next(key), other) {
        (None, None) => true,
        (Some((key, value)), Some((other, same))) => key == other && value == same,
        _ => false,
    }
}

/// How many pairs the leaf has that begins at this key, and where it ends.
fn leaf_at(alloc: Global, tree: &BlockTree, key: &KeyBytes) -> Result<(u64, KeyBytes), Fail> {
    if !is_before_end(key) {
        return Err(Fail::from("a key is behind all"));
    }
    let run = tree.run_for(key)?;
    if run.span.lo != *key {
        return Err(Fail::from("a leaf doesn't begin where the one before ends"));
    }
    write_block(alloc, &run)?;
    let Run { span, pairs } = run;
    let Span { hi, .. } = span;
    Ok((pairs.as_slice().len() as u64, hi))
}

/// How many leaves there are, each a block that begins where the one before it ends, and how many pairs they have.
fn walk(alloc: Global, tree: &BlockTree) -> Result<(u64, u64), Fail> {
    let mut leaves = 0u64;
    let mut pairs = 0u64;
    let mut key = KeyBytes::from_vec(Vec::new(alloc));
    for _ in 0..100_000 {
        if !is_before_end(&key) {
            break;
        }
        let (found, hi) = leaf_at(alloc, tree, &key)?;
        pairs = pairs.saturating_add(found);
        leaves = leaves.saturating_add(1);
        key = hi;
    }
    Ok((leaves, pairs))
}

/// One call by running numbers: mostly a set, now and then of 3000 bytes; kills of 1, 3, 50 or 700 keys.
fn call(alloc: Global, both: &mut Both, number: u64) -> Result<bool, Fail> {
    let from = one_of(number, 1000);
    let key = key_of(alloc, from)?;
    let what = one_of(next_number(number), 100);
    let many = one_of(next_number(next_number(number)), 200);
    if what < 70 {
        let length = if many < 10 { 3000 } else { many };
        return set(both, key, value_of(alloc, length)?);
    }
    if what < 78 {
        return kill(both, &span_of(alloc, from, from.saturating_add(1))?);
    }
    if what < 80 {
        return kill(both, &span_of(alloc, from, from.saturating_add(many))?);
    }
    Ok(look(both, &key))
}

fn calls(alloc: Global, both: &mut Both, seed: u64) -> Result<bool, Fail> {
    let mut number = seed;
    for _ in 0..3000 {
        number = next_number(number);
        if !call(alloc, both, number)? {
            return Ok(false);
        }
    }
    Ok(true)
}

#[test]
fn pairs_stand_in_leaves_that_join_as_they_go(rt: HostRuntime) -> Result<(), Fail> {
    let alloc = rt.alloc();
    let mut both = Both::new(alloc)?;
    for number in 0..2000 {
        let agree = set(&mut both, key_of(alloc, number)?, value_of(alloc, 100)?)?;
        assert!(rt; agree, "set {number}");
    }
    let (leaves, pairs) = walk(alloc, &both.tree)?;
    assert!(rt;
        leaves >= 25 && leaves <= 200 && pairs == 2000,
        "{leaves} leaves, {pairs} pairs"
    );
    for (from, to, most) in [(100, 1900, 12), (0, 90, 5), (1910, 1999, 2)] {
        let agree = kill(&mut both, &span_of(alloc, from, to)?)?;
        let (leaves, pairs) = walk(alloc, &both.tree)?;
        let len = both.tree.len() as u64;
        assert!(rt;
            agree && pairs == len && leaves <= most,
            "{from}: {leaves} leaves, {pairs} pairs"
        );
    }
    Ok(())
}

#[test]
fn a_tree_answers_as_a_map_does(rt: HostRuntime) -> Result<(), Fail> {
    let alloc = rt.alloc();
    for seed in 0..6 {
        let mut both = Both::new(alloc)?;
        let agree = calls(alloc, &mut both, seed)?;
        let (leaves, pairs) = walk(alloc, &both.tree)?;
        let len = both.tree.len() as u64;
        assert!(rt;
            agree && pairs == len,
            "{seed}: {leaves} leaves, {pairs} of {len} pairs"
        );
        let agree = kill(&mut both, &span_of(alloc, 0, 995)?)?;
        let (leaves, _pairs) = walk(alloc, &both.tree)?;
        assert!(rt; agree && leaves <= 3, "{seed}: {leaves} leaves at the end");
    }
    Ok(())
}
