ghost use Rattle.std.specs.Prelude.{◌≡◌, map, IfOk, OnOk, OnErr};
ghost use Rattle.plain_orders.specs.PairMap.{remove, remove_under, pairs_under, put_all};
ghost use Rattle.plain_orders.specs.Fold.{value_back};
ghost use Rattle.plain_orders.specs.Ordered.{KeyMay};
ghost use Rattle.end_words.specs.Runs.{as_entry};
ghost use Rattle.folded_store.specs.Limits.{PairsFit, MapFits, ValueFits};

use block_tree::PairTable;
use plain_programs::node_span;
use std::alloc::{AllocError, Global};
use subscript_keys::{KeyBytes, Pairs, Span, ValueBytes};

/// Removes the pairs of a node and its descendants, and answers them. Out of memory, nothing changes.
pub fn remove_node<P: PairTable>(
    alloc: Global,
    pairs: &mut P,
    node: &KeyBytes,
) -> Result<Pairs, AllocError>
    requires pairs { MapFits (P.pairs pairs.old) }
    requires node { KeyMay node.now }
    ensures removed { IfOk result (λ removed. map as_entry removed ≡ pairs_under (P.pairs pairs.old) node.now) }
    ensures ok { OnOk result (P.pairs pairs.new ≡ remove_under (P.pairs pairs.old) node.now) }
    ensures err { OnErr result (P.pairs pairs.new ≡ P.pairs pairs.old) }
{
    let span = Span::under(alloc, node)?;
    pairs.kill_span(&span)
}

/// Puts back the old value of a key, or its absence. Out of memory, nothing changes.
#[tactic(auto, using(block_tree::proofs::EndLemmas::key_below))]
pub fn put_value_back<P: PairTable>(
    alloc: Global,
    pairs: &mut P,
    key: KeyBytes,
    old: Option<ValueBytes>,
) -> Result<(), AllocError>
    requires pairs { MapFits (P.pairs pairs.old) }
    requires old { ValueFits key old }
    ensures ok { OnOk result (P.pairs pairs.new ≡ value_back (P.pairs pairs.old) key old) }
    ensures err { OnErr result (P.pairs pairs.new ≡ P.pairs pairs.old) }
{
    match old {
        None => remove_pair(alloc, pairs, &key),
        Some(value) => {
            pairs.set(key, value)?;
            Ok(())
        }
    }
}

/// Removes the pair of a key, if there is one. Out of memory, nothing changes.
fn remove_pair<P: PairTable>(alloc: Global, pairs: &mut P, key: &KeyBytes) -> Result<(), AllocError>
    requires { MapFits (P.pairs pairs.old) }
    ensures ok { OnOk result (P.pairs pairs.new ≡ remove (P.pairs pairs.old) key.now) }
    ensures err { OnErr result (P.pairs pairs.new ≡ P.pairs pairs.old) }
{
    let span = node_span(alloc, key)?;
    pairs.kill_span(&span)?;
    Ok(())
}

/// Puts back pairs that were removed. Out of memory, a part of them is put back.
#[tactic(auto, using(block_tree::proofs::EndLemmas::key_below))]
pub fn put_pairs_back<P: PairTable>(pairs: &mut P, removed: Pairs) -> Result<(), AllocError>
    requires pairs { MapFits (P.pairs pairs.old) }
    requires removed { PairsFit (map as_entry removed) }
    ensures ok { OnOk result (P.pairs pairs.new ≡ put_all (P.pairs pairs.old) (map as_entry removed)) }
    ensures fits { MapFits (P.pairs pairs.new) }
{
    for pair in removed.into_vec() {
        pairs.set(pair.key, pair.value)?;
    }
    Ok(())
}
