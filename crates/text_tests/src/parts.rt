//! The small reader of the texts: a line is words with spaces between them.
ghost use Rattle.std.specs.Prelude.{IfOk, IfSome};
ghost use Rattle.subscript_keys.specs.Key.{IsKey, IsSub};
ghost use Rattle.transcript.specs.ActText.{CanPrintOp};

use global_text::{read_node, read_value};
use plain_orders::{LinkName, Mode, Op, Via};
use std::alloc::Global;
use std::str::SplitWhitespace;
use std::test::Fail;
use subscript_keys::{KeyBytes, Sub, ValueBytes, decode, encode};

/// The next word of a line.
pub fn word<'a>(words: &mut SplitWhitespace<'a>) -> Result<&'a str, Fail> {
    Ok(words.next().ok_or("a line has too few words")?)
}

pub fn number(words: &mut SplitWhitespace<'_>) -> Result<u64, Fail> {
    Ok(word(words)?.parse::<u64>()?)
}

/// The index of a server or an application server.
pub fn index(words: &mut SplitWhitespace<'_>) -> Result<u8, Fail> {
    Ok(word(words)?.parse::<u8>()?)
}

/// The key of the node that a text begins with.
pub fn key(alloc: Global, text: &str) -> Option<KeyBytes>
    ensures { IfSome result IsKey }
{
    let Ok((node, _)) = read_node(alloc, text.as_bytes()) else {
        return None;
    };
    match encode(alloc, &node) {
        Ok(key) => Some(key),
        Err(_) => None,
    }
}

/// A subscript as it is printed; the empty text is none.
pub fn found(alloc: Global, text: &str) -> Result<Option<Sub>, Fail>
    ensures { IfOk result (λ found. IfSome found IsSub) }
{
    let node = format!(in alloc; "^x({text})")?;
    let Some(key) = key(alloc, node.as_str()) else {
        return Ok(None);
    };
    let Ok(node) = decode(alloc, key.as_slice()) else {
        return Ok(None);
    };
    match node.subs.as_slice() {
        [sub] => Ok(Some(sub.clone()?)),
        _ => Ok(None),
    }
}

/// A value as it is printed, or `none`.
pub fn value(alloc: Global, words: &mut SplitWhitespace<'_>) -> Result<Option<ValueBytes>, Fail> {
    let text = word(words)?;
    if text == "none" {
        return Ok(None);
    }
    match read_value(alloc, text.as_bytes()) {
        Ok((value, _)) => Ok(Some(value)),
        Err(_) => Err(Fail::from("no value")),
    }
}

pub fn via(words: &mut SplitWhitespace<'_>) -> Result<Via, Fail> {
    match word(words)? {
        "own" => Ok(Via::Own),
        "cached" => Ok(Via::Cached),
        _ => Ok(Via::Fetched),
    }
}

pub fn link_name(words: &mut SplitWhitespace<'_>) -> Result<LinkName, Fail> {
    match word(words)? {
        "NotConnected" => Ok(LinkName::NotConnected),
        "Normal" => Ok(LinkName::Normal),
        "Trouble" => Ok(LinkName::Trouble),
        _ => Ok(LinkName::Recovery),
    }
}

pub fn mode(words: &mut SplitWhitespace<'_>) -> Result<Mode, Fail> {
    match word(words)? {
        "shared" => Ok(Mode::Shared),
        _ => Ok(Mode::Exclusive),
    }
}

/// The update that this word begins.
pub fn op(alloc: Global, kind: &str, words: &mut SplitWhitespace<'_>) -> Result<Op, Fail>
    ensures { IfOk result (λ op. CanPrintOp op) }
{
    let key = key(alloc, word(words)?).ok_or("no node")?;
    if kind == "kill" {
        return Ok(Op::Kill { key });
    }
    if kind == "add" {
        let amount = word(words)?.parse::<i64>()?;
        return Ok(Op::Add { key, amount });
    }
    let value = value(alloc, words)?.ok_or("no value")?;
    Ok(Op::Set { key, value })
}
