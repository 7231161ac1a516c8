ghost use Rattle.std.specs.Prelude.{◌≡◌, ◌↔◌, List, ℕ, IsTrue};
ghost use Rattle.std.specs.declared.cmp.Ordering.TheVariants.{Less};
ghost use Rattle.subscript_keys.specs.Key.{IsKey};
ghost use Rattle.plain_orders.specs.PairMap.{key_cmp};
ghost use Rattle.block_tree.specs.TreeWords.{end_of_keys};

use subscript_keys::KeyBytes;

/// Whether a key is before the byte FF, where the keys of all nodes end.
pub fn is_before_end(key: &KeyBytes) -> bool
    ensures { IsTrue result ↔ (key_cmp key.now end_of_keys ≡ Less) }
{
    match key.as_slice().first() {
        None => true,
        Some(byte) => *byte < 0xFF,
    }
}

/// The key of a node is.
pub fn keys_are_before_end()
    ensures { (key : List ℕ) → IsKey key → key_cmp key end_of_keys ≡ Less }
{}
