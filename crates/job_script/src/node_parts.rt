//! Nodes among the parts of a line.
ghost use Rattle.std.specs.Prelude.{◌≡◌, ◌⊎◌, IfOk, IfErr};
ghost use Rattle.std.specs.List.{AllByRecursion};
ghost use Rattle.subscript_keys.specs.Key.{key_of, HasForm, HasEmpty, IsName, IsWithinLimit};
ghost use Rattle.app_job.specs.Sites.{IsSite};
ghost use Rattle.job_script.specs.declared.line_fault.LineFault.{LineFault};
ghost use Rattle.job_script.specs.declared.line_kind.LineKind.{LineKind};
ghost use Rattle.job_script.specs.Parts.{ANode, ANext, TakesPart, asked};
ghost use Rattle.job_script.specs.Refusals.{IsMemoryFault, RefusesNode, RefusesNext};

use crate::declared::Declared;
use crate::known_front::{KnownFront, behind_front, read_known};
use crate::line_fault::LineFault;
use crate::line_kind::LineKind;
use app_job::Target;
use global_text::NodeFront;
use std::alloc::Global;
use subscript_keys::{KeyError, Node, Sub, Subs};

/// A node at its data server.
fn target_at(alloc: Global, server: u8, node: Node) -> Result<Target, LineFault>
    requires name { IsName node.name }
    requires subs { AllByRecursion HasForm node.subs }
    requires limit { HasEmpty node.subs ⊎ IsWithinLimit (key_of node) }
    ensures server { IfOk result (λ target. target.server ≡ server) }
    ensures node { IfOk result (λ target. target.node ≡ node) }
    ensures site { IfOk result IsSite }
    ensures err { IfErr result (λ fault.
        IsMemoryFault fault ⊎ ((fault ≡ LineFault.Bad LineKind.Node) × HasEmpty node.subs)) }
{
    match Target::new(alloc, server, node) {
        Ok(target) => Ok(target),
        Err(KeyError::Memory(error)) => Err(LineFault::Memory(error)),
        Err(_) => Err(LineFault::Bad(LineKind::Node)),
    }
}

/// A node of a declared global with no empty subscript, and what follows it.
pub fn take_node<'a>(
    alloc: Global,
    declared: &Declared,
    text: &'a [u8],
) -> Result<(Target, &'a [u8]), LineFault>
    ensures ok { IfOk result (λ got. TakesPart declared.now (ANode got.0) text.now got.1.now) }
    ensures err { IfErr result (RefusesNode declared.now text.now) }
{
    let KnownFront { server, front } = read_known(alloc, declared, text)?;
    let rest = behind_front(text, &front)?;
    let NodeFront { name, subs, .. } = front;
    let target = target_at(alloc, server, Node { name, subs })?;
    Ok((target, rest))
}

/// The subscript after which a next looks: the empty text stands before the first.
fn asked(last: Sub) -> Option<Sub>
    ensures { result ≡ asked last }
{
    if let Sub::Text(text) = &last {
        if text.as_slice().is_empty() {
            return None;
        }
    }
    Some(last)
}

/// The node below which a next looks, the subscript after which it looks, if it looks after one, and what follows.
/// The empty text takes no room in the key.
pub fn take_next<'a>(
    alloc: Global,
    declared: &Declared,
    text: &'a [u8],
) -> Result<(Target, Option<Sub>, &'a [u8]), LineFault>
    ensures ok { IfOk result (λ got.
        TakesPart declared.now (ANext got.0 got.1) text.now got.2.now) }
    ensures err { IfErr result (RefusesNext declared.now text.now) }
{
    let KnownFront { server, front } = read_known(alloc, declared, text)?;
    let rest = behind_front(text, &front)?;
    let NodeFront { name, subs, .. } = front;
    let mut subs = subs.into_vec();
    let Some(last) = subs.pop() else {
        return Err(LineFault::Bad(LineKind::NoSub));
    };
    let subs = Subs::from_vec(subs);
    let parent = target_at(alloc, server, Node { name, subs })?;
    Ok((parent, asked(last), rest))
}
