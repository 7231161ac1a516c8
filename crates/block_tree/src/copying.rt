ghost use Rattle.std.specs.Prelude.{◌≡◌, map, IfOk};
ghost use Rattle.std.specs.Map.{keys_of};
ghost use Rattle.std.specs.declared.cmp.Ordering.TheVariants.{Less};
ghost use Rattle.plain_orders.specs.PairMap.{key_cmp, within, IsRising};
ghost use Rattle.block_tree.specs.TreeWords.{as_pair};

use std::alloc::{AllocError, Global};
use std::collections::BTreeMap;
use std::ops::Bound;
use subscript_keys::{KeyBytes, Pair, Pairs, Span, ValueBytes};

/// The pairs of a span.
pub fn pairs_in(
    alloc: Global,
    pairs: &BTreeMap<KeyBytes, ValueBytes>,
    span: &Span,
) -> Result<Pairs, AllocError>
    requires { key_cmp span.now.lo span.now.hi ≡ Less }
    ensures pairs { IfOk result (λ copied. copied ≡ map as_pair (within pairs.now.entries span.now)) }
    ensures rises { IfOk result (λ _. IsRising pairs.now.entries) }
{
    let mut copied = Pairs::new(alloc);
    for (key, value) in pairs.range((Bound::Included(&span.lo), Bound::Excluded(&span.hi))) {
        copied.push(Pair {
            key: key.clone()?,
            value: value.clone()?,
        })?;
    }
    Ok(copied)
}

/// The keys of the pairs of a span.
pub fn keys_in(
    alloc: Global,
    pairs: &BTreeMap<KeyBytes, ValueBytes>,
    span: &Span,
) -> Result<Vec<KeyBytes>, AllocError>
    requires { key_cmp span.now.lo span.now.hi ≡ Less }
    ensures { IfOk result (λ keys. keys.items ≡ keys_of (within pairs.now.entries span.now)) }
{
    let mut keys = Vec::new(alloc);
    for (key, _value) in pairs.range((Bound::Included(&span.lo), Bound::Excluded(&span.hi))) {
        keys.push(key.clone()?)?;
    }
    Ok(keys)
}
