//! The small reader of the texts: a line is a call, an equals sign, and what the call answers; a call is words with
//! spaces between them. A key is the bytes of its word.
use std::alloc::{AllocError, Global};
use std::str::SplitWhitespace;
use std::test::Fail;
use subscript_keys::{KeyBytes, Span};

/// The calls of a text with their answers, but for lines that are empty or a comment.
pub fn calls<'a>(alloc: Global, text: &'a str) -> Result<Vec<(&'a str, &'a str)>, Fail> {
    let mut calls = Vec::new(alloc);
    for line in text.lines() {
        if !line.is_empty() && !line.starts_with('#') {
            let (call, answer) = line.split_once('=').ok_or("a line has no answer")?;
            calls.push((call.trim(), answer.trim()))?;
        }
    }
    Ok(calls)
}

/// The next word of a call.
pub fn word<'a>(words: &mut SplitWhitespace<'a>) -> Result<&'a str, Fail> {
    Ok(words.next().ok_or("a call has too few words")?)
}

pub fn number(words: &mut SplitWhitespace<'_>) -> Result<u64, Fail> {
    Ok(word(words)?.parse::<u64>()?)
}

pub fn key(alloc: Global, words: &mut SplitWhitespace<'_>) -> Result<KeyBytes, Fail> {
    Ok(key_of(alloc, word(words)?)?)
}

pub fn key_of(alloc: Global, text: &str) -> Result<KeyBytes, AllocError> {
    Ok(KeyBytes::from_vec(Vec::from_slice(alloc, text.as_bytes())?))
}

pub fn span(alloc: Global, words: &mut SplitWhitespace<'_>) -> Result<Span, Fail> {
    Ok(Span {
        lo: key(alloc, words)?,
        hi: key(alloc, words)?,
    })
}

/// A word more of an answer.
pub fn add(answer: &mut String, word: &str) -> Result<(), AllocError> {
    if !answer.is_empty() {
        answer.push(' ')?;
    }
    answer.push_str(word)?;
    Ok(())
}
