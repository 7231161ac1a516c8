ghost use Rattle.std.specs.Prelude.{◌≡◌, ℕ, List};
ghost use Rattle.plain_orders.specs.declared.act.Act.{Act};
ghost use Rattle.plain_orders.specs.declared.layout.Names.{Names};
ghost use Rattle.app_job.specs.declared.answer.Answer.{Answer};
ghost use Rattle.transcript.specs.AnswerText.{IsAnswerLine};
ghost use Rattle.transcript.specs.ActText.{AreActLines};
ghost use Rattle.transcript.specs.PieceText.{IsPieceLine};
ghost use Rattle.transcript.specs.declared.piece.Piece.{Piece};

/// An act has one text at most.
pub fn an_act_has_one_text()
    ensures { (act : Act) (text other : List ℕ) → AreActLines act text → AreActLines act other →
        text ≡ other }
{}

/// An answer to a line of a job has one text at most.
pub fn an_answer_has_one_text()
    ensures { (names : Names) (job line : ℕ) (answer : Answer) (text other : List ℕ) →
        IsAnswerLine names job line answer text → IsAnswerLine names job line answer other →
        text ≡ other }
{}

/// A piece has one text at most.
pub fn a_piece_has_one_text()
    ensures { (names : Names) (piece : Piece) (text other : List ℕ) →
        IsPieceLine names piece text → IsPieceLine names piece other → text ≡ other }
{}
