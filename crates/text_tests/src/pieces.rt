//! The line of each piece that is no answer, and a piece that a line tells.
ghost use Rattle.std.specs.Prelude.{IfOk};
ghost use Rattle.transcript.specs.PieceText.{CanPrintPiece};

use crate::answers::{declared, server};
use crate::parts::{number, word};
use std::str::SplitWhitespace;
use std::test::*;
use transcript::{Piece, Restarted, print_piece};

const PIECES: &str = "
* 12 quiet
* 12 left 3
D1 20 kept 3
D2 20 diskfault
D1 20 notajournal 76
D1 20 notkept 4
D2 20 netfault
D1 20 running
D2 14 halted
J2 14 gone
";

/// How a restart ended.
fn outcome(said: &str, words: &mut SplitWhitespace<'_>) -> Result<Restarted, Fail> {
    match said {
        "kept" => {
            let entries = number(words)?;
            Ok(Restarted::Kept { entries })
        }
        "notajournal" => {
            let place = number(words)?;
            Ok(Restarted::NotAJournal { place })
        }
        "notkept" => {
            let place = number(words)?;
            Ok(Restarted::NotKept { place })
        }
        "diskfault" => Ok(Restarted::DiskFault),
        "netfault" => Ok(Restarted::NetFault),
        _ => Ok(Restarted::Running),
    }
}

/// The piece that words tell.
fn piece(words: &mut SplitWhitespace<'_>) -> Result<Piece, Fail>
    ensures { IfOk result (λ piece. CanPrintPiece piece) }
{
    let name = word(words)?;
    let line = word(words)?.parse::<u32>()?;
    let said = word(words)?;
    if said == "quiet" {
        return Ok(Piece::Pumped { line, left: None });
    }
    if said == "left" {
        let left = Some(number(words)?);
        return Ok(Piece::Pumped { line, left });
    }
    if said == "gone" {
        return Ok(Piece::Gone { job: 1, line });
    }
    let server = server(name);
    if said == "halted" {
        return Ok(Piece::Halted { server, line });
    }
    let outcome = outcome(said, words)?;
    Ok(Piece::Restarted {
        server,
        line,
        outcome,
    })
}

#[test]
fn each_piece_has_its_line(rt: HostRuntime) -> Result<(), Fail> {
    let alloc = rt.alloc();
    let names = declared(alloc)?;
    for line in PIECES.lines().filter(|line| !line.is_empty()) {
        let piece = piece(&mut line.split_whitespace())?;
        let mut text = Vec::new(alloc);
        print_piece(&names, &piece, &mut text)?;
        let want = format!(in alloc; "{line}\n")?;
        assert_eq!(rt; text.as_slice(), want.as_bytes());
    }
    Ok(())
}
