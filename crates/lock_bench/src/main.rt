//! A program to be timed: it fills a table with locks of one holder, and then asks for, cancels, frees and gives back
//! locks of another name in rounds. `lock_bench HOLDS ROUNDS`; with 0 rounds it only fills.
#![tactic(auto)]

use anyhow::{Result, bail};
use lock_table::{Asked, LockTable, Request, Who};
use plain_orders::Mode;
use std::alloc::{AllocError, Global};
use std::env;
use subscript_keys::KeyBytes;

/// A session's request with a ticket, for a name in exclusive mode.
fn request_of(alloc: Global, session: u64, ticket: u32, name: &str) -> Result<Request, AllocError> {
    Ok(Request {
        who: Who { session, job: 0 },
        ticket,
        name: KeyBytes::from_vec(Vec::from_slice(alloc, name.as_bytes())?),
        mode: Mode::Exclusive,
    })
}

/// Asks for a lock, and answers whether it was granted.
fn ask(table: &mut LockTable, request: Request) -> Result<bool> {
    if !table.has_room(request.who, &request.name, request.mode, 1) {
        bail!("a count is full");
    }
    match table.ask(request, 1)? {
        Asked::Granted => Ok(true),
        Asked::Waits => Ok(false),
    }
}

/// Locks as many names for one session.
fn fill(alloc: Global, table: &mut LockTable, holds: u32) -> Result<()> {
    for number in 0..holds {
        let name = format!(in alloc; "held{number}.")?;
        if !ask(table, request_of(alloc, 1, number, name.as_str())?)? {
            bail!("a lock that nobody has was not granted");
        }
    }
    Ok(())
}

/// One session locks a name, another's request for it waits and is cancelled, and the lock is freed; then it is locked
/// again and given back.
fn play(alloc: Global, table: &mut LockTable, round: u32) -> Result<()> {
    let asked = request_of(alloc, 2, round, "other")?;
    let given_back = asked.clone()?;
    if !ask(table, asked)? || ask(table, request_of(alloc, 3, round, "other")?)? {
        bail!("a lock was not granted, or twice");
    }
    if table.waiting_with(3, round).is_none() || table.granted_with(2, round).is_none() {
        bail!("a request is lost");
    }
    table.drop_request(3, round, 1)?;
    table.drop_ticket(2, round);
    table.free(given_back.who, &given_back.name, given_back.mode, 1)?;
    if !ask(table, given_back.clone()?)? {
        bail!("a lock that was freed was not granted");
    }
    table.give_back(&given_back, 1)?;
    Ok(())
}

fn main(rt: HostRuntime) -> Result<()> {
    let alloc = rt.alloc();
    let mut words = Vec::new(alloc);
    for word in env::args(&rt)?.skip(1) {
        words.push(word)?;
    }
    let [holds, rounds] = words.as_slice() else {
        bail!("usage: lock_bench HOLDS ROUNDS");
    };
    let (Ok(holds), Ok(rounds)) = (
        holds.as_str().parse::<u32>(),
        rounds.as_str().parse::<u32>(),
    ) else {
        bail!("usage: lock_bench HOLDS ROUNDS");
    };
    let mut table = LockTable::new(alloc);
    fill(alloc, &mut table, holds)?;
    for round in 0..rounds {
        play(alloc, &mut table, round)?;
    }
    println!(rt; "{holds} {rounds}")?;
    Ok(())
}
