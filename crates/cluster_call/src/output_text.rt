//! The text of an output.
ghost use Rattle.std.specs.Prelude.{◌≡◌, ◌++◌, IfOk, OnOk, [], ◌∷◌, codes};
ghost use Rattle.std.specs.List.{AllByRecursion};
ghost use Rattle.global_text.specs.Printed.{Appends};
ghost use Rattle.transcript.specs.PieceText.{CanPrintPiece};
ghost use Rattle.cluster_call.specs.OutputText.{AreTrailLines, IsOutputText, IsTranscript};
ghost use Rattle.cluster_call.specs.Running.{AllCanPrint};

use job_script::Script;
use plain_orders::{Act, Names};
use script_fits::Output;
use std::alloc::{AllocError, Global};
use transcript::{Piece, print_act, print_layout, print_piece};

/// The lines of pieces.
fn print_pieces(names: &Names, pieces: &[Piece], to: &mut Vec<u8>) -> Result<(), AllocError>
    requires { AllByRecursion CanPrintPiece pieces.now }
    ensures { OnOk result (Appends (IsTranscript names.now pieces.now) to.old.items to.new.items) }
{
    for piece in pieces {
        print_piece(names, piece, to)?;
    }
    Ok(())
}

/// The lines of acts.
fn print_acts(alloc: Global, acts: &[Act], to: &mut Vec<u8>) -> Result<(), AllocError>
    requires { AllCanPrint acts.now }
    ensures { OnOk result (Appends (AreTrailLines acts.now) to.old.items to.new.items) }
{
    for act in acts {
        print_act(alloc, act, to)?;
    }
    Ok(())
}

/// The text of an output: the lines of its pieces, the line `trail`, and the trail.
pub fn print_output(alloc: Global, script: &Script, output: &Output) -> Result<Vec<u8>, AllocError>
    requires acts { AllCanPrint output.now.trail }
    requires pieces { AllByRecursion CanPrintPiece output.now.pieces.items }
    ensures { IfOk result (λ text. IsOutputText script.now output.now text.items) }
{
    let mut to = Vec::new(alloc);
    print_pieces(&script.names, output.pieces.as_slice(), &mut to)?;
    to.extend_from_slice(b"trail\n")?;
    print_layout(&script.layout, &mut to)?;
    print_acts(alloc, output.trail.as_slice(), &mut to)?;
    Ok(to)
}
