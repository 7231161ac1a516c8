//! A program to be timed: it makes nodes from a running number, encodes them, and on request sorts their keys
//! and decodes these again. `key_bench PHASE COUNT` with the phases `make`, `encode`, `sort` and `decode`, each
//! with those before it.
#![tactic(auto)]

ghost use Rattle.std.specs.Prelude.{IfOk, IsTrue};
ghost use Rattle.std.specs.List.{AllByRecursion};
ghost use Rattle.subscript_keys.specs.Key.{HasForm, IsName};

use anyhow::{Result, bail};
use std::alloc::{AllocError, Global};
use std::env;
use subscript_keys::{Decimal, KeyBytes, Name, Node, Sub, SubText, Subs, decode, encode};

/// A number where the text is one, and text else.
fn sub_of(alloc: Global, text: &[u8]) -> Result<Sub, AllocError>
    ensures { IfOk result HasForm }
{
    match Decimal::read(text) {
        Some(number) => Ok(Sub::Num(number)),
        None => Ok(Sub::Text(SubText::from_vec(Vec::from_slice(alloc, text)?))),
    }
}

/// The node `^g(N,"kN")` for the next running number.
fn node_of(alloc: Global, number: u64) -> Result<Node, AllocError>
    ensures name { IfOk result (λ node. IsName node.name) }
    ensures subs { IfOk result (λ node. AllByRecursion HasForm node.subs) }
{
    let digits = format!(in alloc; "{}", number % 1_000_000_007)?;
    let word = format!(in alloc; "k{}", number % 10_007)?;
    let mut subs = Subs::new(alloc);
    subs.push(sub_of(alloc, digits.as_bytes())?)?;
    subs.push(sub_of(alloc, word.as_bytes())?)?;
    Ok(Node {
        name: Name::from_vec(Vec::from_slice(alloc, b"g")?),
        subs,
    })
}

/// A running number behind this one.
fn next_number(number: u64) -> u64 {
    number
        .wrapping_mul(6_364_136_223_846_793_005)
        .wrapping_add(1_442_695_040_888_963_407)
}

/// How many bytes the keys of the nodes have in all, or how many subscripts they have where they are only made.
fn work(alloc: Global, phase: &str, count: u32) -> Result<u64> {
    let mut keys: Vec<KeyBytes> = Vec::new(alloc);
    let mut number = 7;
    let mut made = 0u64;
    for _ in 0..count {
        number = next_number(number);
        let node = node_of(alloc, number)?;
        made = made.saturating_add(node.subs.as_slice().len() as u64);
        if phase != "make" {
            let Ok(key) = encode(alloc, &node) else {
                bail!("a node has no key");
            };
            keys.push(key)?;
        }
    }
    if phase == "sort" || phase == "decode" {
        keys.sort()?;
    }
    for key in &keys {
        made = made.saturating_add(key.as_slice().len() as u64);
        if phase == "decode" && decode(alloc, key.as_slice()).is_err() {
            bail!("a key is no node's");
        }
    }
    Ok(made)
}

fn main(rt: HostRuntime) -> Result<()> {
    let alloc = rt.alloc();
    let mut words = Vec::new(alloc);
    for word in env::args(&rt)?.skip(1) {
        words.push(word)?;
    }
    let [phase, count] = words.as_slice() else {
        bail!("usage: key_bench PHASE COUNT");
    };
    let Ok(count) = count.as_str().parse::<u32>() else {
        bail!("usage: key_bench PHASE COUNT");
    };
    let made = work(alloc, phase.as_str(), count)?;
    println!(rt; "{phase} {count} {made}")?;
    Ok(())
}
