//! The text of answers.
ghost use Rattle.std.specs.Prelude.{◌≡◌, ◌++◌, codes, OnOk, OnErr};
ghost use Rattle.std.specs.List.{flat_map};
ghost use Rattle.global_text.specs.Printed.{Appends};
ghost use Rattle.transcript.specs.AnswerText.{held_text, place_text, why_word, IsAnswerOf, IsAnswerLine, CanPrintAnswer};

use crate::printer::Printer;
use crate::refusal_printer::{put_at, put_refusal};
use crate::words::{via_word, why_word};
use app_job::{Answer, Place, Why};
use plain_orders::{NameList, Names, Via};
use std::alloc::AllocError;

/// The length of the prefix at which an answer holds, and where it came from.
fn put_held(to: &mut Printer, at: u64, via: Via) -> Result<(), AllocError>
    ensures { OnOk result (to.new ≡ to.old ++ held_text at via) }
{
    put_at(to, b"", at)?;
    to.bytes(b" ")?;
    to.bytes(via_word(via))
}

/// A space, the data server's name, the mark and the number.
fn put_place(to: &mut Printer, servers: &NameList, mark: u8, place: Place) -> Result<(), AllocError>
    ensures { OnOk result (to.new ≡ to.old ++ place_text servers.now mark place) }
{
    to.bytes(b" ")?;
    to.name(servers, usize::from(place.server))?;
    to.bytes(&[mark])?;
    to.number(place.number)
}

/// Places, each after a space.
fn put_places(
    to: &mut Printer,
    servers: &NameList,
    mark: u8,
    places: &[Place],
) -> Result<(), AllocError>
    ensures { OnOk result (to.new ≡ to.old ++ flat_map (place_text servers.now mark) places.now) }
{
    for place in places {
        put_place(to, servers, mark, *place)?;
    }
    Ok(())
}

/// A word, then places, each after a space.
fn put_placed(
    to: &mut Printer,
    servers: &NameList,
    word: &[u8],
    mark: u8,
    places: &[Place],
) -> Result<(), AllocError>
    ensures { OnOk result (to.new ≡
        to.old ++ (word.now ++ flat_map (place_text servers.now mark) places.now)) }
{
    to.bytes(word)?;
    put_places(to, servers, mark, places)
}

/// What a command waits for.
fn put_waiting(to: &mut Printer, why: Why) -> Result<(), AllocError>
    ensures { OnOk result (to.new ≡ to.old ++ (codes "waiting " ++ why_word why)) }
{
    to.bytes(b"waiting ")?;
    to.bytes(why_word(why))
}

/// An answer.
fn put_answer(to: &mut Printer, names: &Names, answer: &Answer) -> Result<(), AllocError>
    requires { CanPrintAnswer answer.now }
    ensures { OnOk result (Appends (IsAnswerOf names.now answer.now) to.old to.new) }
{
    let servers = &names.servers;
    match answer {
        Answer::Queued { places } => put_placed(to, servers, b"queued", b':', places.as_slice()),
        Answer::Value { value, at, via } => {
            to.bytes(b"value ")?;
            to.value_or_none(value)?;
            put_held(to, *at, *via)
        }
        Answer::Shape { code, at, via } => {
            to.bytes(b"data")?;
            to.field(u64::from(*code))?;
            put_held(to, *at, *via)
        }
        Answer::Next { sub, at, via } => {
            to.bytes(b"next ")?;
            to.sub_or_empty(sub)?;
            put_held(to, *at, *via)
        }
        Answer::Counted { sum, at } => {
            to.bytes(b"counted ")?;
            to.signed(*sum)?;
            put_at(to, b"", *at)
        }
        Answer::Granted { at } => put_at(to, b"granted", *at),
        Answer::Done => to.bytes(b"done"),
        Answer::Committed { places } => {
            put_placed(to, servers, b"committed", b'@', places.as_slice())
        }
        Answer::RolledBack { places } => {
            put_placed(to, servers, b"rolledback", b'@', places.as_slice())
        }
        Answer::Waiting(why) => put_waiting(to, *why),
        Answer::Refused(refusal) => {
            to.bytes(b"refused ")?;
            put_refusal(to, servers, *refusal)
        }
    }
}

/// The line of an answer.
pub fn put_answer_line(
    to: &mut Printer,
    names: &Names,
    job: u16,
    line: u32,
    answer: &Answer,
) -> Result<(), AllocError>
    requires { CanPrintAnswer answer.now }
    ensures { OnOk result (Appends (IsAnswerLine names.now job line answer.now) to.old to.new) }
{
    to.name(&names.jobs, usize::from(job))?;
    to.field(u64::from(line))?;
    to.bytes(b" ")?;
    put_answer(to, names, answer)?;
    to.bytes(b"\n")
}

/// Appends the line of an answer: the job's name, the script's line, the answer, LF. A name whose index isn't
/// declared is left out. After an `Err` what was there stands.
pub fn print_answer(
    names: &Names,
    job: u16,
    line: u32,
    answer: &Answer,
    to: &mut Vec<u8>,
) -> Result<(), AllocError>
    requires { CanPrintAnswer answer.now }
    ensures ok { OnOk result (Appends
        (IsAnswerLine names.now job line answer.now) to.old.items to.new.items) }
    ensures err { OnErr result (to.new.items ≡ to.old.items) }
{
    let mut text = Printer::new(*to.allocator());
    put_answer_line(&mut text, names, job, line, answer)?;
    to.extend_from_slice(text.as_slice())
}
