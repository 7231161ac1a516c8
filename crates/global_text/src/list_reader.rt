//! Reading the subscripts of a node.
ghost use Rattle.std.specs.Prelude.{◌≡◌, ◌∷◌, ◌++◌, [], false, IfOk, IfErr, IsTrue};
ghost use Rattle.std.specs.Char.{is_ascii_alphanumeric};
ghost use Rattle.subscript_keys.specs.Key.{IsName};
ghost use Rattle.global_text.specs.Numbers.{BeginsOtherwise};
ghost use Rattle.global_text.specs.Nodes.{BehindSub, ReadsParts};
ghost use Rattle.global_text.specs.Faults.{HasMarkFault, StopsBehind};

use crate::sub_reader::read_sub;
use crate::text_error::TextError;
use std::alloc::Global;
use subscript_keys::Subs;

/// Whether a subscript is the last one, as the byte after it says, and what follows that byte.
fn read_mark(text: &[u8]) -> Result<(bool, &[u8]), TextError>
    ensures last { IfOk result (λ mark. IsTrue mark.0 → text.now ≡ 41 ∷ mark.1.now) }
    ensures more { IfOk result (λ mark. mark.0 ≡ false → text.now ≡ 44 ∷ mark.1.now) }
    ensures err { IfErr result (HasMarkFault text.now) }
{
    let Some((mark, rest)) = text.split_first() else {
        return Err(TextError::Unclosed);
    };
    match *mark {
        b')' => Ok((true, rest)),
        b',' => Ok((false, rest)),
        b'\n' => Err(TextError::Unclosed),
        _ => Err(TextError::BadSubscript),
    }
}

/// Reads the subscripts after a name and an open parenthesis, and gives what follows the closing one. After an
/// `Err` those in front of the fault are read.
fn read_list<'a>(
    alloc: Global,
    name: &[u8],
    list: &'a [u8],
    subs: &mut Subs,
) -> Result<&'a [u8], TextError>
    requires name { IsName name.now }
    requires none { subs.old ≡ [] }
    ensures ok { IfOk result (λ rest.
        BehindSub (94 ∷ (name.now ++ 40 ∷ list.now)) name.now subs.new (41 ∷ rest.now)) }
    ensures err { IfErr result
        (StopsBehind (94 ∷ (name.now ++ 40 ∷ list.now)) name.now subs.new) }
{
    let mut key = name.len() + 1;
    let mut rest = list;
    'subs: loop {
        let (sub, longer, after) = read_sub(alloc, rest, key)?;
        if let Err(error) = subs.push(sub) {
            return Err(TextError::Memory(error));
        }
        let (last, next) = read_mark(after)?;
        if last {
            return Ok(next);
        }
        key = longer;
        rest = next;
    }
}

/// Reads the subscripts after a name, where there are any, and gives what follows the node. After an `Err`
/// those in front of the fault are read.
pub fn read_subs<'a>(
    alloc: Global,
    name: &[u8],
    text: &'a [u8],
    subs: &mut Subs,
) -> Result<&'a [u8], TextError>
    requires name { IsName name.now }
    requires whole { BeginsOtherwise is_ascii_alphanumeric text.now }
    requires none { subs.old ≡ [] }
    ensures ok { IfOk result (λ rest.
        ReadsParts name.now subs.new (94 ∷ (name.now ++ text.now)) rest.now) }
    ensures err { IfErr result (StopsBehind (94 ∷ (name.now ++ text.now)) name.now subs.new) }
{
    match text {
        [b'(', list @ ..] => read_list(alloc, name, list, subs),
        _ => Ok(text),
    }
}
