//! Reading as much of a node as a text begins with.
ghost use Rattle.std.specs.Prelude.{◌≡◌, ◌==◌, ◌↔◌, ◌∷◌, ◌++◌, [], Err, IfOk, IfErr, IfSome, IsNone};
ghost use Rattle.std.specs.Char.{is_ascii_alphanumeric};
ghost use Rattle.subscript_keys.specs.Key.{IsName};
ghost use Rattle.global_text.specs.Numbers.{BeginsOtherwise};
ghost use Rattle.global_text.specs.Faults.{HasBadName, HasGlobalFault, StopsBehind};
ghost use Rattle.global_text.specs.NodeFronts.{IsReadTo, IsFront};

use crate::list_reader::read_subs;
use crate::name_form::{is_name, split_name};
use crate::text_error::TextError;
use std::alloc::Global;
use subscript_keys::{Name, Subs};

/// As much of a node as a text begins with: its name, the subscripts that are read, and how the reading ended.
#[derive(Drop)]
pub struct NodeFront {
    pub name: Name,
    /// All of them, or those in front of the fault.
    pub subs: Subs,
    /// How many bytes of the text the node takes, or the fault of its subscripts.
    pub end: Result<usize, TextError>,
}

/// What follows the caret.
fn behind_caret(text: &[u8]) -> Option<&[u8]>
    ensures some { IfSome result (λ behind. text.now ≡ 94 ∷ behind.now) }
    ensures none { IsNone result ↔ BeginsOtherwise (λ b. b == 94) text.now }
{
    let (first, behind) = text.split_first()?;
    if *first == b'^' { Some(behind) } else { None }
}

/// The name that follows a caret, and what follows it.
fn take_name(text: &[u8]) -> Option<(&[u8], &[u8])>
    ensures some { IfSome result (λ taken. IsName taken.0.now ×
        (text.now ≡ taken.0.now ++ taken.1.now)) }
    ensures whole { IfSome result (λ taken. BeginsOtherwise is_ascii_alphanumeric taken.1.now) }
    ensures none { IsNone result ↔ HasBadName (94 ∷ text.now) }
{
    let (name, rest) = split_name(text);
    if is_name(name) {
        return Some((name, rest));
    }
    None
}

/// Reads the subscripts of a node after its name, and gives how many bytes of the text the node takes. After an
/// `Err` those in front of the fault are read.
fn read_end(
    alloc: Global,
    text: &[u8],
    name: &[u8],
    rest: &[u8],
    subs: &mut Subs,
) -> Result<usize, TextError>
    requires name { IsName name.now }
    requires stands { text.now ≡ 94 ∷ (name.now ++ rest.now) }
    requires whole { BeginsOtherwise is_ascii_alphanumeric rest.now }
    requires none { subs.old ≡ [] }
    ensures read { IfOk result (IsReadTo text.now name.now subs.new) }
    ensures stop { IfErr result (StopsBehind text.now name.now subs.new) }
{
    let after = read_subs(alloc, name, rest, subs)?;
    Ok(text.len() - after.len())
}

/// The name of the node that a text begins with, and its subscripts as far as they are read. Of several faults
/// the first from the left counts; a bare number's is where it begins, and a key passes its limit within a text,
/// or where a subscript ends. The empty text stands in no key and takes no room.
pub fn read_front(alloc: Global, text: &[u8]) -> Result<NodeFront, TextError>
    ensures ok { IfOk result (IsFront text.now) }
    ensures err { IfErr result (HasGlobalFault text.now) }
    ensures no_caret { (result ≡ Err TextError.NoCaret) ↔ BeginsOtherwise (λ b. b == 94) text.now }
    ensures bad_name { (result ≡ Err TextError.BadName) ↔ HasBadName text.now }
{
    let Some(behind) = behind_caret(text) else {
        return Err(TextError::NoCaret);
    };
    let Some((name, rest)) = take_name(behind) else {
        return Err(TextError::BadName);
    };
    let mut subs = Subs::new(alloc);
    let end = read_end(alloc, text, name, rest, &mut subs);
    let name = Vec::from_slice(alloc, name).map_err(TextError::Memory)?;
    Ok(NodeFront {
        name: Name::from_vec(name),
        subs,
        end,
    })
}
