ghost use Rattle.std.specs.Prelude.{◌≡◌, ◌≢◌, ◌↔◌, ◌<◌, ◌++◌, ◌∷◌, ℕ, List, Err, IfOk, IfSome, IfNone, IsTrue};
ghost use Rattle.std.specs.List.{AllByRecursion};
ghost use Rattle.std.specs.Char.{is_ascii_alphanumeric};
ghost use Rattle.subscript_keys.specs.declared.node.Node.{Node};
ghost use Rattle.subscript_keys.specs.declared.sub.Sub.{Sub};
ghost use Rattle.subscript_keys.specs.Key.{key_of, subs_bytes, IsKey, IsName, IsNode, IsSub};

use crate::key_error::KeyError;
use crate::limits::GLOBAL_NAME_LIMIT;
use crate::name::Name;
use crate::node::Node;
use crate::sub_reader::take_sub;
use crate::subs::Subs;
use std::alloc::{AllocError, Global};

/// The bytes before the first 00, and those after it.
fn split_at_zero(bytes: &[u8]) -> Option<(&[u8], &[u8])>
    ensures some { IfSome result (λ parts. AllByRecursion (λ b. 0 < b) parts.0.now ×
        (bytes.now ≡ parts.0.now ++ 0 ∷ parts.1.now)) }
    ensures none { IfNone result (AllByRecursion (λ b. 0 < b) bytes.now) }
{
    for (place, byte) in bytes.iter().enumerate() {
        if *byte == 0x00 {
            let (front, _) = bytes.split_at(place);
            let (_, back) = bytes.split_at(place + 1);
            return Some((front, back));
        }
    }
    None
}

/// Whether all bytes are letters and digits.
fn are_alphanumeric(bytes: &[u8]) -> bool
    ensures { IsTrue result ↔ AllByRecursion (λ b. IsTrue (is_ascii_alphanumeric b)) bytes.now }
{
    for byte in bytes {
        if !byte.is_ascii_alphanumeric() {
            return false;
        }
    }
    true
}

/// Whether bytes are the name of a global.
fn is_name(bytes: &[u8]) -> bool
    ensures { IsTrue result ↔ IsName bytes.now }
{
    let Some((first, others)) = bytes.split_first() else {
        return false;
    };
    if !first.is_ascii_alphabetic() {
        return false;
    }
    if others.len() >= GLOBAL_NAME_LIMIT {
        return false;
    }
    are_alphanumeric(others)
}

/// The name that a key begins with, and what follows its end.
fn split_name(key: &[u8]) -> Option<(&[u8], &[u8])>
    ensures some { IfSome result (λ parts. IsName parts.0.now ×
        (key.now ≡ parts.0.now ++ 0 ∷ parts.1.now)) }
    ensures none { IfNone result ((name rest : List ℕ) → IsName name →
        key.now ≢ name ++ 0 ∷ rest) }
{
    let Some((name, rest)) = split_at_zero(key) else {
        return None;
    };
    if !is_name(name) {
        return None;
    }
    Some((name, rest))
}

/// The subscripts that bytes stand for, all of the bytes.
fn take_subs(alloc: Global, bytes: &[u8]) -> Result<Option<Subs>, AllocError>
    ensures some { IfOk result (λ taken. IfSome taken (λ subs.
        AllByRecursion IsSub subs × (bytes.now ≡ subs_bytes subs))) }
    ensures none { IfOk result (λ taken. IfNone taken ((subs : List Sub) →
        AllByRecursion IsSub subs → bytes.now ≢ subs_bytes subs)) }
{
    let mut subs = Subs::new(alloc);
    let mut rest = bytes;
    while !rest.is_empty() {
        let Some((sub, after)) = take_sub(alloc, rest)? else {
            return Ok(None);
        };
        subs.push(sub)?;
        rest = after;
    }
    Ok(Some(subs))
}

/// The node whose key the bytes are.
fn take_node(alloc: Global, key: &[u8]) -> Result<Option<Node>, AllocError>
    ensures some { IfOk result (λ taken. IfSome taken (λ node.
        IsNode node × (key_of node ≡ key.now))) }
    ensures none { IfOk result (λ taken. IfNone taken ((node : Node) →
        IsNode node → key_of node ≢ key.now)) }
{
    let Some((name, rest)) = split_name(key) else {
        return Ok(None);
    };
    let Some(subs) = take_subs(alloc, rest)? else {
        return Ok(None);
    };
    let name = Vec::from_slice(alloc, name)?;
    Ok(Some(Node {
        name: Name::from_vec(name),
        subs,
    }))
}

/// The node that has this key, however long the key is.
pub fn decode(alloc: Global, key: &[u8]) -> Result<Node, KeyError>
    ensures ok { IfOk result (λ node. IsNode node × (key_of node ≡ key.now)) }
    ensures not_a_key { result ≡ Err KeyError.NotAKey → IsKey key.now → ⊥ }
    ensures again { (node : Node) → IsNode node → key_of node ≡ key.now →
        IfOk result (λ found. found ≡ node) }
    ensures long { result ≢ Err KeyError.KeyTooLong }
    ensures empty { result ≢ Err KeyError.EmptySubscript }
{
    match take_node(alloc, key) {
        Ok(Some(node)) => Ok(node),
        Ok(None) => Err(KeyError::NotAKey),
        Err(error) => Err(KeyError::Memory(error)),
    }
}
