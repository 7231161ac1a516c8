//! The end of a string or a node within a line.
ghost use Rattle.std.specs.Prelude.{IfSome, IfNone};
ghost use Rattle.job_script.specs.Words.{IsWordEnd};
ghost use Rattle.job_script.specs.Parts.{EndsBefore};

use crate::splits::split_word;

/// What follows the spaces after a string or a node, where a space or the line's end stands there.
#[tactic(auto, using(crate::proofs::WordEnds::word_ends))]
pub fn word_end(text: &[u8]) -> Option<&[u8]>
    ensures some { IfSome result (λ rest. EndsBefore text.now rest.now) }
    ensures none { IfNone result (IsWordEnd text.now → ⊥) }
{
    let (word, rest) = split_word(text);
    if word.is_empty() { Some(rest) } else { None }
}
