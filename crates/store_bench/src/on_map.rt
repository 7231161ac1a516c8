use crate::pairs::key_of;
use crate::what::What;
use std::alloc::{AllocError, Global};
use std::collections::BTreeMap;
use std::ops::Bound;
use subscript_keys::{KeyBytes, ValueBytes};

/// How many pairs were found in std's ordered map.
pub fn found_in_map(
    alloc: Global,
    what: What,
    pairs: Vec<(KeyBytes, ValueBytes)>,
    keys: &[KeyBytes],
) -> Result<u64, AllocError> {
    let mut map = BTreeMap::new(alloc);
    for (key, value) in pairs {
        map.insert(key, value)?;
    }
    match what {
        What::Sets | What::Rising => Ok(map.len() as u64),
        What::Gets => Ok(gets(&map, keys)),
        What::Walk => walk(alloc, &map),
        What::Kills(_many) => kills(alloc, &mut map, keys.len() as u64),
    }
}

fn gets(map: &BTreeMap<KeyBytes, ValueBytes>, keys: &[KeyBytes]) -> u64 {
    let mut found = 0u64;
    for key in keys {
        if map.get(key).is_some() {
            found = found.wrapping_add(1);
        }
    }
    found
}

fn walk(alloc: Global, map: &BTreeMap<KeyBytes, ValueBytes>) -> Result<u64, AllocError> {
    let mut found = 0u64;
    let mut key = KeyBytes::from_vec(Vec::new(alloc));
    for _ in 0..map.len() {
        let Some((next, _value)) = map.range((Bound::Excluded(&key), Bound::Unbounded)).next()
        else {
            break;
        };
        key = next.clone()?;
        found = found.wrapping_add(1);
    }
    Ok(found)
}

fn kills(
    alloc: Global,
    map: &mut BTreeMap<KeyBytes, ValueBytes>,
    count: u64,
) -> Result<u64, AllocError> {
    let mut found = 0u64;
    for number in 0..count {
        if map.remove(&key_of(alloc, number)?).is_some() {
            found = found.wrapping_add(1);
        }
    }
    Ok(found)
}
