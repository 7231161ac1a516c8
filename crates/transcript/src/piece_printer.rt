//! The text of pieces.
ghost use Rattle.std.specs.Prelude.{◌≡◌, ◌++◌, codes, OnOk, OnErr};
ghost use Rattle.global_text.specs.Printed.{Appends};
ghost use Rattle.transcript.specs.Parts.{field, name_at};
ghost use Rattle.transcript.specs.PieceText.{left_text, restarted_text, said_line, IsPieceLine, CanPrintPiece};

use crate::answer_printer::put_answer_line;
use crate::piece::{AnswerLine, Piece, Restarted};
use crate::printer::Printer;
use plain_orders::{NameList, Names};
use std::alloc::AllocError;

/// A word, and a number after it.
fn put_count(to: &mut Printer, word: &[u8], count: u64) -> Result<(), AllocError>
    ensures { OnOk result (to.new ≡ to.old ++ (word.now ++ field count)) }
{
    to.bytes(word)?;
    to.field(count)
}

/// What a pump left, if anything.
fn put_left(to: &mut Printer, left: Option<u64>) -> Result<(), AllocError>
    ensures { OnOk result (to.new ≡ to.old ++ left_text left) }
{
    match left {
        Some(left) => put_count(to, b"left", left),
        None => to.bytes(b"quiet"),
    }
}

/// How a restart ended.
fn put_restarted(to: &mut Printer, outcome: Restarted) -> Result<(), AllocError>
    ensures { OnOk result (to.new ≡ to.old ++ restarted_text outcome) }
{
    match outcome {
        Restarted::Kept { entries } => put_count(to, b"kept", entries),
        Restarted::DiskFault => to.bytes(b"diskfault"),
        Restarted::NotAJournal { place } => put_count(to, b"notajournal", place),
        Restarted::NotKept { place } => put_count(to, b"notkept", place),
        Restarted::NetFault => to.bytes(b"netfault"),
        Restarted::Running => to.bytes(b"running"),
    }
}

/// The line of a pump.
fn put_pump_line(to: &mut Printer, line: u32, left: Option<u64>) -> Result<(), AllocError>
    ensures { OnOk result (to.new ≡ to.old ++ said_line (codes "*") line (left_text left)) }
{
    to.bytes(b"*")?;
    to.field(u64::from(line))?;
    to.bytes(b" ")?;
    put_left(to, left)?;
    to.bytes(b"\n")
}

/// The line of a restart.
fn put_restart_line(
    to: &mut Printer,
    servers: &NameList,
    server: u8,
    line: u32,
    outcome: Restarted,
) -> Result<(), AllocError>
    ensures { OnOk result (to.new ≡
        to.old ++ said_line (name_at servers.now server) line (restarted_text outcome)) }
{
    to.name(servers, usize::from(server))?;
    to.field(u64::from(line))?;
    to.bytes(b" ")?;
    put_restarted(to, outcome)?;
    to.bytes(b"\n")
}

/// A line that says one word of what has this name.
fn put_word_line(
    to: &mut Printer,
    names: &NameList,
    index: usize,
    line: u32,
    word: &[u8],
) -> Result<(), AllocError>
    ensures { OnOk result (to.new ≡
        to.old ++ said_line (name_at names.now index) line word.now) }
{
    to.name(names, index)?;
    to.field(u64::from(line))?;
    to.bytes(b" ")?;
    to.bytes(word)?;
    to.bytes(b"\n")
}

/// The line of a piece.
fn put_piece_line(to: &mut Printer, names: &Names, piece: &Piece) -> Result<(), AllocError>
    requires { CanPrintPiece piece.now }
    ensures { OnOk result (Appends (IsPieceLine names.now piece.now) to.old to.new) }
{
    match piece {
        Piece::Answered(AnswerLine { job, line, answer }) => {
            put_answer_line(to, names, *job, *line, answer)
        }
        Piece::Pumped { line, left } => put_pump_line(to, *line, *left),
        Piece::Restarted {
            server,
            line,
            outcome,
        } => put_restart_line(to, &names.servers, *server, *line, *outcome),
        Piece::Halted { server, line } => {
            put_word_line(to, &names.servers, usize::from(*server), *line, b"halted")
        }
        Piece::Gone { job, line } => {
            put_word_line(to, &names.jobs, usize::from(*job), *line, b"gone")
        }
    }
}

/// Appends the line of a piece: a name or a star, the script's line, what is said, LF. A name whose index isn't
/// declared is left out. After an `Err` what was there stands.
pub fn print_piece(names: &Names, piece: &Piece, to: &mut Vec<u8>) -> Result<(), AllocError>
    requires { CanPrintPiece piece.now }
    ensures ok { OnOk result (Appends
        (IsPieceLine names.now piece.now) to.old.items to.new.items) }
    ensures err { OnErr result (to.new.items ≡ to.old.items) }
{
    let mut text = Printer::new(*to.allocator());
    put_piece_line(&mut text, names, piece)?;
    to.extend_from_slice(text.as_slice())
}
