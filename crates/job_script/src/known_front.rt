//! Nodes of declared globals.
ghost use Rattle.std.specs.Prelude.{◌≡◌, ◌≢◌, List, ℕ, drop, Some, None, IfOk, IfErr};
ghost use Rattle.global_text.specs.Faults.{StopsBehind};
ghost use Rattle.global_text.specs.NodeFronts.{IsReadTo, IsFront};
ghost use Rattle.job_script.specs.declared.declared.Declared.{Declared};
ghost use Rattle.job_script.specs.Names.{server_of};
ghost use Rattle.job_script.specs.Parts.{EndsBefore};
ghost use Rattle.job_script.specs.Refusals.{IsDeclared, RefusesNode, RefusesNext};

use crate::declared::Declared;
use crate::line_fault::LineFault;
use crate::line_kind::LineKind;
use crate::word_end::word_end;
use global_text::{NodeFront, TextError, read_front};
use std::alloc::Global;
use subscript_keys::{Sub, has_empty};

/// As much of a node as a text begins with, and the data server of its global, which is declared.
#[derive(Drop)]
pub struct KnownFront {
    pub server: u8,
    pub front: NodeFront,
}

/// As much of a node as a text begins with.
fn read_global(alloc: Global, text: &[u8]) -> Result<NodeFront, LineFault>
    ensures ok { IfOk result (IsFront text.now) }
    ensures node { IfErr result (λ fault. (d : Declared) → RefusesNode d text.now fault) }
    ensures next { IfErr result (λ fault. (d : Declared) → RefusesNext d text.now fault) }
{
    if text.is_empty() {
        return Err(LineFault::Bad(LineKind::Words));
    }
    match read_front(alloc, text) {
        Ok(front) => Ok(front),
        Err(TextError::Memory(error)) => Err(LineFault::Memory(error)),
        Err(_) => Err(LineFault::Bad(LineKind::Node)),
    }
}

/// As much of a node as a text begins with, whose global must be declared.
pub fn read_known(alloc: Global, declared: &Declared, text: &[u8]) -> Result<KnownFront, LineFault>
    ensures ok { IfOk result (λ known. IsFront text.now known.front) }
    ensures server { IfOk result (λ known.
        server_of declared.now.globals known.front.name ≡ Some known.server) }
    ensures node { IfErr result (RefusesNode declared.now text.now) }
    ensures next { IfErr result (RefusesNext declared.now text.now) }
{
    let front = read_global(alloc, text)?;
    match declared.server_of(front.name.as_slice()) {
        Some(server) => Ok(KnownFront { server, front }),
        None => Err(LineFault::Unknown),
    }
}

/// What a fault of a node's subscripts is in a line. An empty one in front of it is a bad node.
fn subs_fault(subs: &[Sub], error: &TextError) -> LineFault
    ensures node { (d : Declared) (name text : List ℕ) → IsDeclared d name text →
        StopsBehind text name subs.now error.now → RefusesNode d text result }
    ensures next { (d : Declared) (name text : List ℕ) → IsDeclared d name text →
        StopsBehind text name subs.now error.now → RefusesNext d text result }
{
    match error {
        TextError::Memory(error) => LineFault::Memory(*error),
        TextError::KeyTooLong => {
            if has_empty(subs) {
                LineFault::Bad(LineKind::Node)
            } else {
                LineFault::Bad(LineKind::Key)
            }
        }
        _ => LineFault::Bad(LineKind::Node),
    }
}

/// What follows a node that is read to its end, and the spaces after it.
pub fn behind_front<'a>(text: &'a [u8], front: &NodeFront) -> Result<&'a [u8], LineFault>
    requires { IsFront text.now front.now }
    ensures ok { IfOk result (λ rest. (taken : ℕ)
        × IsReadTo text.now front.now.name front.now.subs taken
        × EndsBefore (drop taken text.now) rest.now) }
    ensures node { IfErr result (λ fault. (d : Declared) →
        server_of d.globals front.now.name ≢ None → RefusesNode d text.now fault) }
    ensures next { IfErr result (λ fault. (d : Declared) →
        server_of d.globals front.now.name ≢ None → RefusesNext d text.now fault) }
{
    let taken = match &front.end {
        Ok(taken) => *taken,
        Err(error) => return Err(subs_fault(front.subs.as_slice(), error)),
    };
    let (_, behind) = text.split_at(taken);
    match word_end(behind) {
        Some(rest) => Ok(rest),
        None => Err(LineFault::Bad(LineKind::Node)),
    }
}
