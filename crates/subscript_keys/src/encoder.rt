ghost use Rattle.std.specs.Prelude.{◌≡◌, ◌≢◌, ◌↔◌, ◌<◌, length, Err, IfOk, IsTrue};
ghost use Rattle.std.specs.List.{AllByRecursion};
ghost use Rattle.subscript_keys.specs.Key.{key_of, AreBytes, IsName, HasForm, HasEmpty, IsNode, IsWithinLimit};

use crate::key_bytes::KeyBytes;
use crate::key_error::KeyError;
use crate::limits::KEY_LIMIT;
use crate::node::Node;
use crate::sub::Sub;
use crate::sub_writer::put_subs;
use std::alloc::{AllocError, Global};

/// Whether some subscript is the empty text.
pub fn has_empty(subs: &[Sub]) -> bool
    ensures { IsTrue result ↔ HasEmpty subs.now }
{
    for sub in subs {
        if let Sub::Text(text) = sub {
            if text.as_slice().is_empty() {
                return true;
            }
        }
    }
    false
}

/// The node's name, 00 and its subscripts, however long.
#[tactic(auto, unfolding(crate::specs::Key::key_of))]
fn all_bytes(alloc: Global, node: &Node) -> Result<Vec<u8>, AllocError>
    requires { AllByRecursion HasForm node.now.subs }
    ensures { IfOk result (λ bytes. bytes.items ≡ key_of node.now) }
{
    let mut bytes = Vec::from_slice(alloc, node.name.as_slice())?;
    bytes.push(0x00)?;
    put_subs(&mut bytes, node.subs.as_slice())?;
    Ok(bytes)
}

/// Whether a key is within the limit.
fn is_within_limit(key: &[u8]) -> bool
    ensures limit { IsTrue result ↔ IsWithinLimit key.now }
    ensures bytes { AreBytes key.now }
{
    key.len() <= KEY_LIMIT
}

/// The key of a node. An empty subscript is looked for first.
pub fn encode(alloc: Global, node: &Node) -> Result<KeyBytes, KeyError>
    requires name { IsName node.now.name }
    requires subs { AllByRecursion HasForm node.now.subs }
    ensures ok { IfOk result (λ key. key ≡ key_of node.now) }
    ensures node { IfOk result (λ key. IsNode node.now) }
    ensures limit { IfOk result IsWithinLimit }
    ensures empty { (result ≡ Err KeyError.EmptySubscript) ↔ HasEmpty node.now.subs }
    ensures long { result ≡ Err KeyError.KeyTooLong → KEY_LIMIT < length (key_of node.now) }
    ensures no_key { result ≢ Err KeyError.NotAKey }
{
    if has_empty(node.subs.as_slice()) {
        return Err(KeyError::EmptySubscript);
    }
    let bytes = all_bytes(alloc, node).map_err(KeyError::Memory)?;
    if !is_within_limit(&bytes) {
        return Err(KeyError::KeyTooLong);
    }
    Ok(KeyBytes::from_vec(bytes))
}
