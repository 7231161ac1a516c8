//! A call of `script` over memory.
use cluster_call::script;
use outer_io::{MemSink, MemSource, Sink, Word};
use std::alloc::{AllocError, Global};

/// The words of a command line.
pub fn words(alloc: Global, texts: &[&str]) -> Result<Vec<Word>, AllocError> {
    let mut words = Vec::new(alloc);
    for text in texts {
        words.push(Word::from_string(String::from_str(alloc, text)?))?;
    }
    Ok(words)
}

/// The status of a script with this text, whose takes with the given numbers fail.
pub fn status_of<K: Sink>(
    alloc: Global,
    text: Vec<u8>,
    failing: &[u64],
    out: &mut K,
) -> Result<u8, AllocError> {
    let mut source = MemSource::new(text, Vec::from_slice(alloc, failing)?);
    let words = words(alloc, &["script", "FILE"])?;
    Ok(script(alloc, &words, &mut source, out).number())
}

/// The status and the output of a script with this text.
pub fn run(alloc: Global, text: &[u8]) -> Result<(u8, Vec<u8>), AllocError> {
    let mut sink = MemSink::new(alloc, Vec::new(alloc));
    let status = status_of(alloc, Vec::from_slice(alloc, text)?, &[], &mut sink)?;
    Ok((status, Vec::from_slice(alloc, sink.bytes())?))
}

/// The four declarations.
pub const DECLARED: &str = "data D1\napp A1\njob J1 A1\nglobal ^x D1\n";

/// A script that sets a global and reads it back.
pub const FIRST: &str = "data D1\napp A1\njob J1 A1\nglobal ^x D1\nJ1: set ^x 5\nJ1: get ^x\n";

/// What it prints.
pub const FIRST_OUTPUT: &str =
    "J1 5 queued D1:1\nJ1 6 value 5 @3 fetched\ntrail\ntimes 5 60 1200 60 0\nopened 0 0\nenter 0 open 2 0\nsynced 0 2\nmet 0 0 2\nissue 0 5 0 1 set ^x 5\nenter 0 update 2 1 0 0 set ^x 5\nsynced 0 3\nread 0 6 0 3 fetched get ^x 5\n";
