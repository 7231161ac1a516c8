//! A program to be timed: it notes spans that follow one another, each for two of 16 sessions, or keeps runs of such
//! spans, and then asks many times. `span_bench touched SPANS ASKED` notes so many; each time a change touches one span,
//! which its two sessions are told of and noted for again. `span_bench cover RUNS ASKED` looks for a key in so many runs.
#![tactic(auto)]

use anyhow::{Result, bail};
use block_cache::BlockCache;
use block_holders::Holders;
use plain_orders::Spans;
use std::alloc::{AllocError, Global};
use std::env;
use subscript_keys::{KeyBytes, Pairs, Run, Span};

/// The key of a number, in the order of the numbers.
fn key_of(alloc: Global, number: u64) -> Result<KeyBytes, AllocError> {
    Ok(KeyBytes::from_vec(Vec::from_slice(alloc, &number.to_be_bytes())?))
}

/// The span from a number's key up to the next one's.
fn span_of(alloc: Global, number: u64) -> Result<Span, AllocError> {
    Ok(Span {
        lo: key_of(alloc, number)?,
        hi: key_of(alloc, number.saturating_add(1))?,
    })
}

/// A running number behind this one.
fn next_number(number: u64) -> u64 {
    number
        .wrapping_mul(6_364_136_223_846_793_005)
        .wrapping_add(1_442_695_040_888_963_407)
}

/// One of so many places by a running number.
fn place_of(number: u64, places: u64) -> u64 {
    if places == 0 {
        return 0;
    }
    (number / 8_589_934_592) % places
}

/// Notes the span of a place for the two sessions that share it.
fn note(alloc: Global, holders: &mut Holders, place: u64) -> Result<(), AllocError> {
    holders.note(place % 16, span_of(alloc, place)?)?;
    holders.note((place % 16 + 1) % 16, span_of(alloc, place)?)
}

/// How many were told of changes.
fn touched(alloc: Global, spans: u64, asked: u32) -> Result<u64, AllocError> {
    let places = spans / 2;
    let mut holders = Holders::new(alloc);
    for place in 0..places {
        note(alloc, &mut holders, place)?;
    }
    let mut told = 0u64;
    let mut number = 7;
    for _ in 0..asked {
        number = next_number(number);
        let place = place_of(number, places);
        let mut changed = Spans::new(alloc);
        changed.push(span_of(alloc, place)?)?;
        let drops = holders.touched(&changed)?;
        told = told.saturating_add(drops.as_slice().len() as u64);
        note(alloc, &mut holders, place)?;
    }
    Ok(told)
}

/// How many keys were found.
fn cover(alloc: Global, runs: u64, asked: u32) -> Result<u64, AllocError> {
    let mut cache = BlockCache::new(alloc)?;
    for place in 0..runs {
        cache.take_block(Run {
            span: span_of(alloc, place)?,
            pairs: Pairs::from_vec(Vec::new(alloc)),
        })?;
    }
    let mut found = 0u64;
    let mut number = 7;
    for _ in 0..asked {
        number = next_number(number);
        let key = key_of(alloc, place_of(number, runs))?;
        if cache.cover(&key).is_some() {
            found = found.saturating_add(1);
        }
    }
    Ok(found)
}

fn main(rt: HostRuntime) -> Result<()> {
    let alloc = rt.alloc();
    let mut words = Vec::new(alloc);
    for word in env::args(&rt)?.skip(1) {
        words.push(word)?;
    }
    let [what, count, asked] = words.as_slice() else {
        bail!("usage: span_bench WHAT COUNT ASKED");
    };
    let Ok(count) = count.as_str().parse::<u64>() else {
        bail!("usage: span_bench WHAT COUNT ASKED");
    };
    let Ok(asked) = asked.as_str().parse::<u32>() else {
        bail!("usage: span_bench WHAT COUNT ASKED");
    };
    let what = what.as_str();
    let answered = if what == "touched" {
        touched(alloc, count, asked)?
    } else {
        cover(alloc, count, asked)?
    };
    println!(rt; "{what} {count} {asked} {answered}")?;
    Ok(())
}
