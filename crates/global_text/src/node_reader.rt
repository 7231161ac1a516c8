//! Reading nodes.
ghost use Rattle.std.specs.Prelude.{◌≡◌, ◌==◌, ◌≤◌, ◌↔◌, ◌⊎◌, length, drop, Err, IfOk, IfErr};
ghost use Rattle.std.specs.List.{AllByRecursion};
ghost use Rattle.subscript_keys.specs.Key.{key_of, HasEmpty, HasForm, IsName, IsWithinLimit};
ghost use Rattle.global_text.specs.Numbers.{BeginsOtherwise};
ghost use Rattle.global_text.specs.Nodes.{ReadsNode};
ghost use Rattle.global_text.specs.Faults.{HasBadName, HasNodeFault};

use crate::node_front::{NodeFront, read_front};
use crate::text_error::TextError;
use std::alloc::Global;
use subscript_keys::Node;

/// The node that a text begins with, and how many bytes of the text it takes. Of several faults the first from
/// the left counts; a bare number's is where it begins, and a key passes its limit within a text, or where a
/// subscript ends. The empty text stands in no key and takes no room.
#[tactic(auto, using(crate::proofs::NodeParts::key_within))]
pub fn read_node(alloc: Global, text: &[u8]) -> Result<(Node, usize), TextError>
    ensures ok { IfOk result (λ read. ReadsNode read.0 text.now (drop read.1 text.now)) }
    ensures length { IfOk result (λ read. read.1 ≤ length text.now) }
    ensures name { IfOk result (λ read. IsName read.0.name) }
    ensures subs { IfOk result (λ read. AllByRecursion HasForm read.0.subs) }
    ensures limit { IfOk result (λ read. HasEmpty read.0.subs ⊎ IsWithinLimit (key_of read.0)) }
    ensures err { IfErr result (HasNodeFault text.now) }
    ensures no_caret { (result ≡ Err TextError.NoCaret) ↔ BeginsOtherwise (λ b. b == 94) text.now }
    ensures bad_name { (result ≡ Err TextError.BadName) ↔ HasBadName text.now }
{
    let NodeFront { name, subs, end } = read_front(alloc, text)?;
    match end {
        Ok(length) => Ok((Node { name, subs }, length)),
        Err(error) => Err(error),
    }
}
