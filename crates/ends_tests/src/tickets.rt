use crate::texts::{calls, key_of, number, word};
use lock_index::TicketList;
use lock_table::{Request, Who};
use plain_orders::Mode;
use std::alloc::Global;
use std::test::Fail;

/// A row is told by its session, its job and its ticket; each job has another row.
const CALLS: &str = "
first 2 1 = none
push 2 5 1 =
push 3 6 1 =
push 2 7 1 =
push 2 8 2 =
push 3 9 2 =
# The first with a ticket is told, and the last row goes.
first 2 1 = 2.5.1
drop_last =
first 3 2 = none
first 2 2 = 2.8.2
# All with a ticket go, and all of a session.
drop_ticket 2 1 =
first 2 1 = none
first 2 2 = 2.8.2
drop_session 2 =
first 2 2 = none
first 3 1 = 3.6.1
drop_last =
drop_last =
first 3 1 = none
";

#[test]
fn a_row_is_found_by_its_ticket(rt: HostRuntime) -> Result<(), Fail> {
    let mut list = TicketList::new(rt.alloc());
    for (call, wanted) in calls(rt.alloc(), CALLS)? {
        let answer = called(rt.alloc(), &mut list, call)?;
        assert_eq!(rt; answer.as_str(), wanted, "{call}");
    }
    Ok(())
}

fn called(alloc: Global, list: &mut TicketList<Request>, call: &str) -> Result<String, Fail> {
    let mut words = call.split_whitespace();
    let words = &mut words;
    match word(words)? {
        "push" => {
            let who = Who {
                session: number(words)?,
                job: word(words)?.parse::<u16>()?,
            };
            list.push(Request {
                who,
                ticket: word(words)?.parse::<u32>()?,
                name: key_of(alloc, "a")?,
                mode: Mode::Shared,
            })?;
        }
        "first" => {
            let found = list.first_with(number(words)?, word(words)?.parse::<u32>()?);
            return told(alloc, found);
        }
        "drop_ticket" => list.drop_ticket(number(words)?, word(words)?.parse::<u32>()?),
        "drop_session" => list.drop_session(number(words)?),
        _ => list.drop_last(),
    }
    Ok(String::new(alloc))
}

fn told(alloc: Global, found: Option<&Request>) -> Result<String, Fail> {
    match found {
        None => Ok(String::from_str(alloc, "none")?),
        Some(row) => Ok(format!(in alloc; "{}.{}.{}", row.who.session, row.who.job, row.ticket)?),
    }
}
