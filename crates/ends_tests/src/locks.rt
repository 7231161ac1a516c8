use crate::texts::{add, calls, key, number, word};
use lock_table::{Asked, ClaimError, Hold, LockTable, Request, Who, conflict};
use plain_orders::Mode;
use std::alloc::Global;
use std::str::SplitWhitespace;
use std::test::Fail;

/// A holder is a session and a job; a request is told by its session and ticket.
const CALLS: &str = "
# A holder's lock of a name joins the one that it has; another holder waits, for a descendant too.
ask 2 0 1 exclusive a 4 = granted
ask 2 0 2 exclusive a 5 = granted
ask 3 0 1 shared ab 6 = waits
ask 2 1 3 exclusive b 6 = granted
holds 2 0 exclusive a = true
holds 2 0 shared a = false
requests 3 = 3.1
# One that came later waits behind it, but for a holder that has the very name.
ask 4 0 1 exclusive abc 6 = waits
ask 2 0 4 shared a 7 = granted
free 2 0 exclusive a 8 =
free 2 0 exclusive a 9 = 3.1
free 2 0 shared a 9 =
holds 3 0 shared ab = true
# What isn't held isn't freed.
free 9 0 shared ab 9 =
# A waiting request goes, and lets through what it stood before.
ask 5 0 1 exclusive b 10 = waits
ask 6 0 1 shared b 10 = waits
free 2 1 exclusive b 11 = 5.1
drop_request 6 1 12 =
waiting 6 1 = false
# A granted one is given back once.
granted 5 1 = true
give_back 5 1 13 =
granted 5 1 = false
holds 5 0 exclusive b = false
drop_ticket 3 1 =
granted 3 1 = false
holds 3 0 shared ab = true
# A session goes with its holds, its requests and its tickets.
ask 3 0 7 exclusive c 14 = granted
ask 6 2 8 shared cd 14 = waits
drop_session 3 15 = 4.1 6.8
requests 4 =
holds 3 0 exclusive c = false
# A claim adds, or is refused by the first hold of another that conflicts.
claim 6 2 shared cd 3 14 = claimed
claim 7 0 shared cde 1 2 = claimed
claim 8 0 exclusive c 1 2 = conflict 6 2
room 6 2 shared cd 4294967291 = true
room 6 2 shared cd 4294967292 = false
conflict 2 0 exclusive a 3 0 shared ab = true
conflict 2 0 shared a 3 0 shared ab = false
conflict 2 0 exclusive a 2 0 shared ab = false
conflict 2 0 exclusive ab 3 0 exclusive ac = false
# Of the holds that bar a claim the first by its grant is told, whatever its name. A name beside it bars nothing.
claim 20 0 exclusive xyz 1 2 = claimed
claim 21 0 exclusive xa 1 2 = claimed
claim 22 0 exclusive x 1 2 = conflict 20 0
ask 22 0 1 exclusive xb 20 = granted
ask 22 1 2 exclusive xyzw 20 = waits
free 20 0 exclusive xyz 21 = 22.2
";

#[test]
fn each_call_answers_by_the_holds_and_requests_before_it(rt: HostRuntime) -> Result<(), Fail> {
    let mut table = LockTable::new(rt.alloc());
    for (call, wanted) in calls(rt.alloc(), CALLS)? {
        let answer = called(rt.alloc(), &mut table, call)?;
        assert_eq!(rt; answer.as_str(), wanted, "{call}");
    }
    Ok(())
}

fn called(alloc: Global, table: &mut LockTable, call: &str) -> Result<String, Fail> {
    let mut words = call.split_whitespace();
    let words = &mut words;
    match word(words)? {
        "ask" => asked(alloc, table, words),
        "claim" => claimed(alloc, table, words),
        "conflict" => {
            let (one, other) = (lock(alloc, words)?, lock(alloc, words)?);
            said(alloc, conflict(&one, &other))
        }
        "holds" => {
            let lock = lock(alloc, words)?;
            said(alloc, table.holds_it(lock.who, &lock.name, lock.mode))
        }
        "room" => {
            let lock = lock(alloc, words)?;
            let more = word(words)?.parse::<u32>()?;
            said(alloc, table.has_room(lock.who, &lock.name, lock.mode, more))
        }
        "requests" => told(alloc, table.requests_of(number(words)?)?),
        _ => by_ticket(alloc, table, call),
    }
}

/// The calls that free something, or look for a ticket.
fn by_ticket(alloc: Global, table: &mut LockTable, call: &str) -> Result<String, Fail> {
    let mut words = call.split_whitespace();
    let words = &mut words;
    match word(words)? {
        "free" => {
            let lock = lock(alloc, words)?;
            let grants = table.free(lock.who, &lock.name, lock.mode, number(words)?)?;
            told(alloc, grants.into_vec())
        }
        "drop_session" => {
            let grants = table.drop_session(number(words)?, number(words)?)?;
            told(alloc, grants.into_vec())
        }
        "drop_request" => {
            let (session, ticket) = (number(words)?, ticket(words)?);
            let grants = table.drop_request(session, ticket, number(words)?)?;
            told(alloc, grants.into_vec())
        }
        "waiting" => {
            let request = table.waiting_with(number(words)?, ticket(words)?);
            said(alloc, request.is_some())
        }
        "granted" => {
            let request = table.granted_with(number(words)?, ticket(words)?);
            said(alloc, request.is_some())
        }
        "give_back" => {
            let request = table.granted_with(number(words)?, ticket(words)?);
            let request = request.ok_or("no such ticket was granted")?.clone()?;
            told(alloc, table.give_back(&request, number(words)?)?.into_vec())
        }
        _ => {
            table.drop_ticket(number(words)?, ticket(words)?);
            Ok(String::new(alloc))
        }
    }
}

fn asked(
    alloc: Global,
    table: &mut LockTable,
    words: &mut SplitWhitespace<'_>,
) -> Result<String, Fail> {
    let who = who(words)?;
    let request = Request {
        who,
        ticket: ticket(words)?,
        mode: mode(words)?,
        name: key(alloc, words)?,
    };
    if !table.has_room(request.who, &request.name, request.mode, 1) {
        return Ok(String::from_str(alloc, "no room")?);
    }
    match table.ask(request, number(words)?)? {
        Asked::Granted => Ok(String::from_str(alloc, "granted")?),
        Asked::Waits => Ok(String::from_str(alloc, "waits")?),
    }
}

fn claimed(
    alloc: Global,
    table: &mut LockTable,
    words: &mut SplitWhitespace<'_>,
) -> Result<String, Fail> {
    let mut hold = lock(alloc, words)?;
    hold.count = word(words)?.parse::<u32>()?;
    hold.at = number(words)?;
    if !table.has_room(hold.who, &hold.name, hold.mode, hold.count) {
        return Ok(String::from_str(alloc, "no room")?);
    }
    match table.claim(hold) {
        Ok(()) => Ok(String::from_str(alloc, "claimed")?),
        Err(ClaimError::Conflict { held, .. }) => {
            Ok(format!(in alloc; "conflict {} {}", held.who.session, held.who.job)?)
        }
        Err(ClaimError::Memory(error)) => Err(error)?,
    }
}

fn who(words: &mut SplitWhitespace<'_>) -> Result<Who, Fail> {
    Ok(Who {
        session: number(words)?,
        job: word(words)?.parse::<u16>()?,
    })
}

fn ticket(words: &mut SplitWhitespace<'_>) -> Result<u32, Fail> {
    Ok(word(words)?.parse::<u32>()?)
}

fn mode(words: &mut SplitWhitespace<'_>) -> Result<Mode, Fail> {
    match word(words)? {
        "shared" => Ok(Mode::Shared),
        _ => Ok(Mode::Exclusive),
    }
}

/// A lock held once: its holder, its mode and its name.
fn lock(alloc: Global, words: &mut SplitWhitespace<'_>) -> Result<Hold, Fail> {
    Ok(Hold {
        who: who(words)?,
        mode: mode(words)?,
        name: key(alloc, words)?,
        count: 1,
        at: 0,
    })
}

fn said(alloc: Global, yes: bool) -> Result<String, Fail> {
    Ok(format!(in alloc; "{yes}")?)
}

fn told(alloc: Global, requests: Vec<Request>) -> Result<String, Fail> {
    let mut answer = String::new(alloc);
    for request in requests {
        let text = format!(in alloc; "{}.{}", request.who.session, request.ticket)?;
        add(&mut answer, text.as_str())?;
    }
    Ok(answer)
}
