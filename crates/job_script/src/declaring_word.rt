ghost use Rattle.std.specs.Prelude.{◌≡◌, ◌≢◌, IfSome, IfNone};
ghost use Rattle.job_script.specs.FirstWords.{declaring_text};
ghost use Rattle.job_script.specs.declared.declared_line.DeclaringWord.{DeclaringWord};

use crate::declared_line::DeclaringWord;
use crate::splits::is_same;

/// Such words, in the order in which they are looked for.
const DECLARING_WORDS: [DeclaringWord; 5] = [
    DeclaringWord::Data,
    DeclaringWord::App,
    DeclaringWord::Job,
    DeclaringWord::Global,
    DeclaringWord::Time,
];

/// The word as it stands in a line.
fn declaring_text(word: DeclaringWord) -> &'static [u8]
    ensures { result.now ≡ declaring_text word }
{
    match word {
        DeclaringWord::Data => b"data",
        DeclaringWord::App => b"app",
        DeclaringWord::Job => b"job",
        DeclaringWord::Global => b"global",
        DeclaringWord::Time => b"time",
    }
}

/// The word with which a line that declares something begins.
pub fn declaring_word_of(word: &[u8]) -> Option<DeclaringWord>
    ensures some { IfSome result (λ declaring. word.now ≡ declaring_text declaring) }
    ensures none { IfNone result ((declaring : DeclaringWord) → word.now ≢ declaring_text declaring) }
{
    for declaring in DECLARING_WORDS {
        if is_same(word, declaring_text(declaring)) {
            return Some(declaring);
        }
    }
    None
}
