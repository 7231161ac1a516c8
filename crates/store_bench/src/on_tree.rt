use crate::pairs::key_of;
use crate::what::What;
use anyhow::{Result, bail};
use block_tree::{BlockTree, is_before_end};
use std::alloc::Global;
use subscript_keys::{KEY_LIMIT, KeyBytes, Span, VALUE_LIMIT, ValueBytes};

/// How many pairs were found in a tree of blocks.
pub fn found_in_tree(
    alloc: Global,
    what: What,
    pairs: Vec<(KeyBytes, ValueBytes)>,
    keys: &[KeyBytes],
) -> Result<u64> {
    let mut tree = BlockTree::new(alloc)?;
    for (key, value) in pairs {
        put(&mut tree, key, value)?;
    }
    match what {
        What::Sets | What::Rising => Ok(tree.len() as u64),
        What::Gets => Ok(gets(&tree, keys)),
        What::Walk => walk(alloc, &tree),
        What::Kills(many) => kills(alloc, &mut tree, keys.len() as u64, many),
    }
}

fn put(tree: &mut BlockTree, key: KeyBytes, value: ValueBytes) -> Result<()> {
    if key.as_slice().len() > KEY_LIMIT || value.as_slice().len() > VALUE_LIMIT {
        bail!("a key or a value is too long");
    }
    if !is_before_end(&key) {
        bail!("a key is behind those of all nodes");
    }
    tree.set(key, value)?;
    Ok(())
}

fn gets(tree: &BlockTree, keys: &[KeyBytes]) -> u64 {
    let mut found = 0u64;
    for key in keys {
        if tree.get(key).is_some() {
            found = found.wrapping_add(1);
        }
    }
    found
}

fn walk(alloc: Global, tree: &BlockTree) -> Result<u64> {
    let mut found = 0u64;
    let mut key = KeyBytes::from_vec(Vec::new(alloc));
    for _ in 0..tree.len() {
        let Some((next, _value)) = tree.next(&key) else {
            break;
        };
        key = next.clone()?;
        found = found.wrapping_add(1);
    }
    Ok(found)
}

fn kills(alloc: Global, tree: &mut BlockTree, count: u64, many: u64) -> Result<u64> {
    let mut found = 0u64;
    let mut from = 0u64;
    for _ in 0..count {
        if from >= count {
            break;
        }
        let to = from.saturating_add(many);
        let span = Span {
            lo: key_of(alloc, from)?,
            hi: key_of(alloc, to)?,
        };
        let removed = tree.kill_span(&span)?;
        found = found.wrapping_add(removed.as_slice().len() as u64);
        from = to;
    }
    Ok(found)
}
