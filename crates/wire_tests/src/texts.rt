//! The small reader of the texts: a line is words with spaces between them, and a word bytes or a number.
use std::alloc::{AllocError, Global};
use std::str::SplitWhitespace;
use std::test::Fail;

/// The lines of a text, but those that are empty or a comment.
pub fn lines<'a>(alloc: Global, text: &'a str) -> Result<Vec<&'a str>, AllocError> {
    let mut lines = Vec::new(alloc);
    for line in text.lines() {
        if !line.is_empty() && !line.starts_with('#') {
            lines.push(line)?;
        }
    }
    Ok(lines)
}

/// The next word of a line.
pub fn word<'a>(words: &mut SplitWhitespace<'a>) -> Result<&'a str, Fail> {
    Ok(words.next().ok_or("a line has too few words")?)
}

/// The bytes of a word: hexadecimal digits, or a byte and how often it stands there, as FF*24, with dots between
/// such parts. A dash stands for none.
pub fn bytes(alloc: Global, words: &mut SplitWhitespace<'_>) -> Result<Vec<u8>, Fail> {
    let mut bytes = Vec::new(alloc);
    let text = word(words)?;
    if text == "-" {
        return Ok(bytes);
    }
    for part in text.split('.') {
        match part.split_once('*') {
            Some((byte, times)) => {
                let byte = u8::from_str_radix(byte, 16)?;
                let times = times.parse::<usize>()?;
                bytes.extend_from_slice(&vec![in alloc; byte; times]?)?;
            }
            None => bytes.extend_from_slice(&hex::decode(alloc, part)?)?,
        }
    }
    Ok(bytes)
}

/// A number in hexadecimal digits.
pub fn number(words: &mut SplitWhitespace<'_>) -> Result<u64, Fail> {
    Ok(u64::from_str_radix(word(words)?, 16)?)
}
