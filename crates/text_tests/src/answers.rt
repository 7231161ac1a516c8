//! The line of each answer, and an answer that a line tells.
ghost use Rattle.std.specs.Prelude.{IfOk};
ghost use Rattle.transcript.specs.AnswerText.{CanPrintAnswer};

use crate::parts::{found, index, link_name, number, value, via, word};
use app_job::{Answer, Place, Places, Reason, Refusal, Why};
use plain_orders::{JobApps, Layout, NameList, Names, Times};
use std::alloc::Global;
use std::str::SplitWhitespace;
use std::test::*;
use subscript_keys::Name;
use transcript::{AnswerLine, Piece, print_answer, print_layout, print_piece};

const ANSWERS: &str = r#"
J2 7 queued D1:1 D2:4
J2 7 queued :5
J2 7 value 5 @3 fetched
J2 7 value none @2 cached
J2 7 value "none" @2 own
J2 7 data 10 @8 cached
J2 7 next "" @11 cached
J1 7 next "A" @11 cached
J1 7 next -.5 @11 cached
J1 7 next "a""b\\" @11 cached
J2 7 counted 6 @7
J2 7 counted -6 @7
J2 7 granted @4
J2 7 granted @18446744073709551615
J2 7 done
J2 7 committed D1@9 D2@4
J2 7 rolledback D1@12
J2 7 waiting state
J2 7 waiting queue
J2 7 waiting own
J2 7 waiting fetch
J2 7 waiting grant
J2 7 waiting reply
J2 7 refused network D1 Recovery reset
J2 7 refused network D2 Trouble expired
J2 7 refused network D1 NotConnected noway
J2 7 refused network D2 Normal reset
J2 7 refused rollbackonly
J2 7 refused notwhole @6
J2 7 refused range @4
J2 7 refused notransaction
J2 7 refused toodeep
J2 7 refused locktimeout
"#;

/// Names from their texts.
fn names_of(alloc: Global, texts: &str) -> Result<NameList, Fail> {
    let mut names = NameList::new(alloc);
    for text in texts.split(' ') {
        names.push(Name::from_vec(Vec::from_slice(alloc, text.as_bytes())?))?;
    }
    Ok(names)
}

/// Two data servers, an application server and two jobs.
pub fn declared(alloc: Global) -> Result<Names, Fail> {
    Ok(Names {
        servers: names_of(alloc, "D1 D2")?,
        apps: names_of(alloc, "A1")?,
        jobs: names_of(alloc, "J1 J2")?,
    })
}

/// The index of a data server by its name; another than the two that are declared has no name.
pub fn server(name: &str) -> u8 {
    match name {
        "D1" => 0,
        "D2" => 1,
        _ => 2,
    }
}

/// Places to the line's end, a server and a number each.
fn places(alloc: Global, words: &mut SplitWhitespace<'_>) -> Result<Places, Fail> {
    let mut places = Places::new(alloc);
    for word in words {
        let word = word.replace(alloc, '@', ":")?;
        let (name, number) = word.split_once(':').ok_or("no place")?;
        let number = number.parse::<u64>()?;
        places.push(Place {
            server: server(name),
            number,
        })?;
    }
    Ok(places)
}

/// A position, after its @.
fn at(words: &mut SplitWhitespace<'_>) -> Result<u64, Fail> {
    let (_, number) = word(words)?.split_once('@').ok_or("no position")?;
    Ok(number.parse::<u64>()?)
}

fn why(words: &mut SplitWhitespace<'_>) -> Result<Why, Fail> {
    match word(words)? {
        "state" => Ok(Why::State),
        "queue" => Ok(Why::Queue),
        "own" => Ok(Why::Own),
        "fetch" => Ok(Why::Fetch),
        "grant" => Ok(Why::Grant),
        _ => Ok(Why::Reply),
    }
}

fn refusal(words: &mut SplitWhitespace<'_>) -> Result<Refusal, Fail> {
    match word(words)? {
        "rollbackonly" => return Ok(Refusal::RollbackOnly),
        "notwhole" => return Ok(Refusal::NotWhole { at: at(words)? }),
        "range" => return Ok(Refusal::Range { at: at(words)? }),
        "notransaction" => return Ok(Refusal::NoTransaction),
        "toodeep" => return Ok(Refusal::TooDeep),
        "locktimeout" => return Ok(Refusal::LockTimeout),
        _ => {}
    }
    let server = server(word(words)?);
    let state = link_name(words)?;
    let reason = match word(words)? {
        "reset" => Reason::Reset { at: 5 },
        "expired" => Reason::Expired {
            broke: 3,
            now: 1203,
        },
        _ => Reason::NoWay {
            before: 0,
            after: 1,
        },
    };
    Ok(Refusal::Network {
        server,
        state,
        reason,
    })
}

/// The answer that words tell.
fn answer(alloc: Global, words: &mut SplitWhitespace<'_>) -> Result<Answer, Fail>
    ensures { IfOk result (λ answer. CanPrintAnswer answer) }
{
    match word(words)? {
        "queued" => Ok(Answer::Queued {
            places: places(alloc, words)?,
        }),
        "committed" => Ok(Answer::Committed {
            places: places(alloc, words)?,
        }),
        "rolledback" => Ok(Answer::RolledBack {
            places: places(alloc, words)?,
        }),
        "done" => Ok(Answer::Done),
        "granted" => Ok(Answer::Granted { at: at(words)? }),
        "waiting" => Ok(Answer::Waiting(why(words)?)),
        "refused" => Ok(Answer::Refused(refusal(words)?)),
        kind => read_answer(alloc, kind, words),
    }
}

/// The answer to a command that reads or counts.
fn read_answer(alloc: Global, kind: &str, words: &mut SplitWhitespace<'_>) -> Result<Answer, Fail>
    ensures { IfOk result (λ answer. CanPrintAnswer answer) }
{
    if kind == "counted" {
        let sum = word(words)?.parse::<i64>()?;
        return Ok(Answer::Counted {
            sum,
            at: at(words)?,
        });
    }
    if kind == "next" {
        let sub = found(alloc, word(words)?)?;
        return Ok(Answer::Next {
            sub,
            at: at(words)?,
            via: via(words)?,
        });
    }
    if kind == "data" {
        return Ok(Answer::Shape {
            code: index(words)?,
            at: at(words)?,
            via: via(words)?,
        });
    }
    let value = value(alloc, words)?;
    Ok(Answer::Value {
        value,
        at: at(words)?,
        via: via(words)?,
    })
}

#[test]
fn each_answer_has_its_line(rt: HostRuntime) -> Result<(), Fail> {
    let alloc = rt.alloc();
    let names = declared(alloc)?;
    for line in ANSWERS.lines().filter(|line| !line.is_empty()) {
        let mut words = line.split_whitespace();
        let job = if word(&mut words)? == "J2" { 1 } else { 0 };
        let number = word(&mut words)?.parse::<u32>()?;
        let answer = answer(alloc, &mut words)?;
        let mut text = Vec::new(alloc);
        print_answer(&names, job, number, &answer, &mut text)?;
        let piece = Piece::Answered(AnswerLine {
            job,
            line: number,
            answer,
        });
        print_piece(&names, &piece, &mut text)?;
        let want = format!(in alloc; "{line}\n{line}\n")?;
        assert_eq!(rt; text.as_slice(), want.as_bytes());
    }
    Ok(())
}

#[test]
fn the_times_have_their_line(rt: HostRuntime) -> Result<(), Fail> {
    let alloc = rt.alloc();
    for line in ["times 5 60 1200 60\n", "times 5 60 1200 60 1 0\n"] {
        let mut words = line.split_whitespace();
        let _ = word(&mut words)?;
        let times = Times {
            retry: word(&mut words)?.parse()?,
            trouble: word(&mut words)?.parse()?,
            recover: word(&mut words)?.parse()?,
            round: word(&mut words)?.parse()?,
        };
        let mut apps = Vec::new(alloc);
        for app in words {
            apps.push(app.parse::<u8>()?)?;
        }
        let layout = Layout {
            servers: 2,
            apps: 2,
            job_apps: JobApps::from_vec(apps),
            times,
        };
        let mut text = Vec::new(alloc);
        print_layout(&layout, &mut text)?;
        assert_eq!(rt; text.as_slice(), line.as_bytes());
    }
    Ok(())
}
