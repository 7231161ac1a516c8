//! Lines of a text and words of a line.
ghost use Rattle.std.specs.Prelude.{◌≡◌, ◌≢◌, ◌<◌, ◌+◌, ◌↔◌, ◌++◌, ◌∷◌, length, All, IfSome, IfNone, IsTrue, slice_index, take};
ghost use Rattle.job_script.specs.Lines.{script_lines, without_cr};
ghost use Rattle.job_script.specs.Words.{spaces_off, trimmed, first_word, behind_word};

/// The place of the first such byte.
fn place_of(text: &[u8], byte: u8) -> Option<usize>
    ensures within { IfSome result (λ at. at < length text.now) }
    ensures there { IfSome result (λ at. slice_index text.now at ≡ byte) }
    ensures before { IfSome result (λ at. All (λ b. b ≢ byte) (take at text.now)) }
    ensures none { IfNone result (All (λ b. b ≢ byte) text.now) }
{
    text.iter().position(|b| *b == byte)
}

/// What stands before the first such byte, and what follows it.
#[tactic(auto, using(crate::proofs::WordLemmas::cut_at))]
fn split_once(text: &[u8], byte: u8) -> Option<(&[u8], &[u8])>
    ensures cut { IfSome result (λ parts. text.now ≡ parts.0.now ++ byte ∷ parts.1.now) }
    ensures before { IfSome result (λ parts. All (λ b. b ≢ byte) parts.0.now) }
    ensures none { IfNone result (All (λ b. b ≢ byte) text.now) }
{
    let Some(at) = place_of(text, byte) else {
        return None;
    };
    let (front, ended) = text.split_at(at);
    let (_, rest) = ended.split_at(1);
    Some((front, rest))
}

/// Without the spaces in front.
#[tactic(auto, using(crate::proofs::WordLemmas::spaces))]
fn skip_spaces(text: &[u8]) -> &[u8]
    ensures { result.now ≡ spaces_off text.now }
{
    let mut rest = text;
    while let Some((first, others)) = rest.split_first() {
        if *first != b' ' {
            return rest;
        }
        rest = others;
    }
    rest
}

/// Without the spaces at both ends.
#[tactic(auto, using(crate::proofs::WordLemmas::spaces))]
pub fn trim(text: &[u8]) -> &[u8]
    ensures { result.now ≡ trimmed text.now }
{
    let mut rest = skip_spaces(text);
    while let Some((last, others)) = rest.split_last() {
        if *last != b' ' {
            return rest;
        }
        rest = others;
    }
    rest
}

/// The first word, which is empty where a space comes first, and what follows it and its spaces.
#[tactic(auto, using(crate::proofs::WordLemmas::words))]
pub fn split_word(text: &[u8]) -> (&[u8], &[u8])
    ensures first { first_word text.now ≡ result.0.now }
    ensures behind { behind_word text.now ≡ result.1.now }
{
    let Some((word, rest)) = split_once(text, b' ') else {
        return (text, &[]);
    };
    (word, skip_spaces(rest))
}

/// Without a CR at the end.
#[tactic(auto, using(crate::proofs::LineLemmas::line_ends))]
fn drop_cr(line: &[u8]) -> &[u8]
    ensures { result.now ≡ without_cr line.now }
{
    let Some((last, front)) = line.split_last() else {
        return line;
    };
    if *last == b'\r' { front } else { line }
}

/// The first line of a text, without its end, and what follows it.
#[tactic(auto, using(crate::proofs::LineLemmas::first_line))]
pub fn split_line(text: &[u8]) -> (&[u8], &[u8])
    requires { 0 < length text.now }
    ensures lines { script_lines text.now ≡ result.0.now ∷ script_lines result.1.now }
    ensures shorter { length result.1.now < length text.now }
{
    let Some((raw, rest)) = split_once(text, b'\n') else {
        return (text, &[]);
    };
    (drop_cr(raw), rest)
}

/// How many lines a text has.
#[tactic(auto, using(crate::proofs::LineLemmas::line_counts))]
pub fn count_lines(text: &[u8]) -> usize
    ensures { result ≡ length (script_lines text.now) }
{
    let mut count = 0;
    let mut rest = text;
    while !rest.is_empty() {
        let (_, behind) = split_line(rest);
        rest = behind;
        count += 1;
    }
    count
}

/// Whether these are the same bytes.
pub fn is_same(a: &[u8], b: &[u8]) -> bool
    ensures { IsTrue result ↔ (a.now ≡ b.now) }
{
    a == b
}
