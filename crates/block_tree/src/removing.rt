ghost use Rattle.std.specs.Prelude.{◌≡◌, ◌+◌, ◌≤◌, ◌++◌, map, length, vec_len, vec_capacity};
ghost use Rattle.plain_orders.specs.PairMap.{remove};
ghost use Rattle.block_tree.specs.TreeWords.{as_pair};
ghost use Rattle.block_tree.specs.Removals.{all_removed, all_found, bytes_left};

use crate::sizes::without_pair;
use std::collections::BTreeMap;
use subscript_keys::{KeyBytes, Pair, ValueBytes};

/// Removes the pairs with these keys, and moves them behind those removed, which have room for them.
pub fn remove_all(
    pairs: &mut BTreeMap<KeyBytes, ValueBytes>,
    bytes: &mut usize,
    keys: Vec<KeyBytes>,
    removed: &mut Vec<Pair>,
)
    requires room { vec_len removed.old + vec_len keys ≤ vec_capacity removed.old }
    ensures pairs { pairs.new.entries ≡ all_removed pairs.old.entries keys.items }
    ensures removed { removed.new.items ≡ removed.old.items ++ map as_pair (all_found pairs.old.entries keys.items) }
    ensures bytes { bytes.new ≡ bytes_left bytes.old pairs.old.entries keys.items }
{
    for key in keys {
        if let Some(value) = pairs.remove(&key) {
            *bytes = without_pair(*bytes, &key, &value);
            removed.push_reserved(Pair { key, value });
        }
    }
}
