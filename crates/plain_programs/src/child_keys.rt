ghost use Rattle.std.specs.Prelude.{◌≡◌, ◌++◌, IfOk, IsTrue, Some};
ghost use Rattle.subscript_keys.specs.Key.{sub_bytes, IsKey, IsSub};
ghost use Rattle.subscript_keys.specs.Span.{span_hi};
ghost use Rattle.plain_orders.specs.PairMap.{is_below};
ghost use Rattle.plain_orders.specs.Answers.{data_code, IsSubIn};

use std::alloc::{AllocError, Global};
use subscript_keys::{KeyBytes, Sub, put_sub, take_sub};

/// Where the span of a node's child and all that is below it ends.
pub fn end_of_child(alloc: Global, parent: &KeyBytes, sub: &Sub) -> Result<KeyBytes, AllocError>
    requires { IsSub sub.now }
    ensures { IfOk result (λ end. end ≡ span_hi (parent.now ++ sub_bytes sub.now)) }
{
    let mut end = Vec::from_slice(alloc, parent.as_slice())?;
    put_sub(&mut end, sub)?;
    end.push(0xFF)?;
    Ok(KeyBytes::from_vec(end))
}

/// The subscript that stands right after a node's key in that of a descendant.
pub fn sub_behind(
    alloc: Global,
    parent: &KeyBytes,
    key: &KeyBytes,
) -> Result<Option<Sub>, AllocError>
    requires parent { IsKey parent.now }
    requires key { IsKey key.now }
    requires below { IsTrue (is_below parent.now key.now) }
    ensures { IfOk result (λ sub. IsSubIn parent.now (Some key.now) sub) }
{
    let Some(rest) = key.as_slice().strip_prefix(parent.as_slice()) else {
        return Ok(None);
    };
    match take_sub(alloc, rest)? {
        None => Ok(None),
        Some((sub, _after)) => Ok(Some(sub)),
    }
}

/// The code of what stands at and below a node.
pub fn data_code(has_value: bool, has_descendants: bool) -> u8
    ensures { result ≡ data_code has_value has_descendants }
{
    match (has_descendants, has_value) {
        (true, true) => 11,
        (true, false) => 10,
        (false, true) => 1,
        (false, false) => 0,
    }
}
