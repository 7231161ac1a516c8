//! Optional words among the parts of a line.
ghost use Rattle.std.specs.Prelude.{◌≢◌, [], IfOk, IfErr};
ghost use Rattle.job_script.specs.Parts.{TakesFlag, TakesWait};
ghost use Rattle.job_script.specs.Refusals.{RefusesWait};

use crate::line_fault::LineFault;
use crate::number_parts::take_number;
use crate::splits::{is_same, split_word};

/// How many ticks a job may wait for a grant.
const WAIT_LIMIT: u64 = 10_000;

/// Whether this word comes first, and what follows it.
#[tactic(auto, using(crate::proofs::WordLemmas::word_some))]
pub fn take_flag<'a>(text: &'a [u8], word: &[u8]) -> (bool, &'a [u8])
    requires { word.now ≢ [] }
    ensures { TakesFlag word.now result.0 text.now result.1.now }
{
    let (first, rest) = split_word(text);
    if is_same(first, word) {
        (true, rest)
    } else {
        (false, text)
    }
}

/// The ticks that a job waits, if `wait` comes first, and what follows them.
#[tactic(auto, using(crate::proofs::WordLemmas::word_some))]
pub fn take_wait(text: &[u8]) -> Result<(Option<u32>, &[u8]), LineFault>
    ensures ok { IfOk result (λ got. TakesWait got.0 text.now got.1.now) }
    ensures err { IfErr result (RefusesWait text.now) }
{
    let (first, rest) = split_word(text);
    if !is_same(first, b"wait") {
        return Ok((None, text));
    }
    let (ticks, rest) = take_number(rest, 1, WAIT_LIMIT)?;
    Ok((Some(ticks as u32), rest))
}
