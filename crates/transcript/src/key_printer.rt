//! The text of the nodes that keys stand for.
ghost use Rattle.std.specs.Prelude.{◌≡◌, OnOk, IfOk, IfSome};
ghost use Rattle.std.specs.List.{AllByRecursion};
ghost use Rattle.subscript_keys.specs.Key.{key_of, IsKey, IsNode, IsSub, HasForm};
ghost use Rattle.global_text.specs.Printed.{Appends};
ghost use Rattle.transcript.specs.Parts.{or_empty, IsKeyText, IsBehindText};
ghost use Rattle.transcript.specs.ActText.{IsLockText};

use crate::printer::Printer;
use crate::words::mode_word;
use plain_orders::Mode;
use std::alloc::{AllocError, Global};
use subscript_keys::{KeyBytes, KeyError, Node, Sub, SubText, decode};

/// The node that has the key.
fn node_of(alloc: Global, key: &KeyBytes) -> Result<Node, AllocError>
    requires { IsKey key.now }
    ensures node { IfOk result IsNode }
    ensures key { IfOk result (λ node. key_of node ≡ key.now) }
    ensures forms { IfOk result (λ node. AllByRecursion HasForm node.subs) }
{
    match decode(alloc, key.as_slice()) {
        Ok(node) => Ok(node),
        Err(KeyError::Memory(error)) => Err(error),
        Err(_) => unreachable!(),
    }
}

/// The subscript, or the empty text where it is missing.
#[tactic(auto, using(crate::proofs::PartLemmas::empty_is_no_number, crate::proofs::PartLemmas::sub_form))]
fn sub_or_empty(alloc: Global, sub: &Option<Sub>) -> Result<Sub, AllocError>
    requires { IfSome sub.now IsSub }
    ensures sub { IfOk result (λ made. made ≡ or_empty sub.now) }
    ensures form { IfOk result HasForm }
{
    match sub {
        Some(sub) => sub.clone(),
        None => Ok(Sub::Text(SubText::from_vec(Vec::new(alloc)))),
    }
}

/// The node that has the key.
pub fn put_key(to: &mut Printer, key: &KeyBytes) -> Result<(), AllocError>
    requires { IsKey key.now }
    ensures { OnOk result (Appends (IsKeyText key.now) to.old to.new) }
{
    let node = node_of(to.alloc(), key)?;
    to.node(&node)
}

/// The node that has the key, with the subscript after which a next looks.
#[tactic(auto, using(crate::proofs::PartLemmas::forms_more))]
pub fn put_behind(to: &mut Printer, key: &KeyBytes, sub: &Option<Sub>) -> Result<(), AllocError>
    requires key { IsKey key.now }
    requires sub { IfSome sub.now IsSub }
    ensures { OnOk result (Appends (IsBehindText key.now sub.now) to.old to.new) }
{
    let mut node = node_of(to.alloc(), key)?;
    node.subs.push(sub_or_empty(to.alloc(), sub)?)?;
    to.node(&node)
}

/// A mode, and the node that has the key.
#[tactic(auto, unfolding(crate::specs::ActText::IsLockText))]
pub fn put_lock(to: &mut Printer, mode: Mode, key: &KeyBytes) -> Result<(), AllocError>
    requires { IsKey key.now }
    ensures { OnOk result (Appends (IsLockText mode key.now) to.old to.new) }
{
    to.bytes(mode_word(mode))?;
    to.bytes(b" ")?;
    put_key(to, key)
}
