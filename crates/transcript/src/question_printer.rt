//! The text of reads.
ghost use Rattle.std.specs.Prelude.{◌≡◌, OnOk};
ghost use Rattle.global_text.specs.Printed.{Appends};
ghost use Rattle.transcript.specs.ActText.{IsQuestionText, CanPrintQuestion};

use crate::key_printer::{put_behind, put_key};
use crate::printer::Printer;
use plain_orders::Question;
use std::alloc::AllocError;

/// What a read asked and was answered.
pub fn put_question(to: &mut Printer, question: &Question) -> Result<(), AllocError>
    requires { CanPrintQuestion question.now }
    ensures { OnOk result (Appends (IsQuestionText question.now) to.old to.new) }
{
    match question {
        Question::Get { key, value } => {
            to.bytes(b"get ")?;
            put_key(to, key)?;
            to.bytes(b" ")?;
            to.value_or_none(value)
        }
        Question::Shape { key, code } => {
            to.bytes(b"data ")?;
            put_key(to, key)?;
            to.field(u64::from(*code))
        }
        Question::Next { parent, sub, found } => {
            to.bytes(b"next ")?;
            put_behind(to, parent, sub)?;
            to.bytes(b" ")?;
            to.sub_or_empty(found)
        }
    }
}
