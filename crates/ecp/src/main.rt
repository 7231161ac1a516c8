//! The program `ecp`: it hands the words, the file and standard output to the top call, and ends with its status.
#![tactic(auto)]

use cluster_call::{Status, script};
use outer_io::{LazyFile, Word, WriterSink};
use std::alloc::{AllocError, Global};
use std::env;
use std::io::{self, ErrorKind};
use std::process::ExitCode;
use std::rt::Env;

/// The words behind the program's name. Words that aren't UTF-8 are no form of a command, as no words are.
fn words(alloc: Global, rt: &(impl Env + AllocGlobal)) -> Result<Vec<Word>, AllocError> {
    let mut words = Vec::new(alloc);
    match env::args(rt) {
        Ok(args) => {
            for text in args.skip(1) {
                words.push(Word::from_string(text))?;
            }
        }
        Err(error) if error.kind() == ErrorKind::OutOfMemory => return Err(AllocError),
        Err(_) => {}
    }
    Ok(words)
}

/// The name of the script's file: the second word, which the source opens at its first take.
fn file_name(alloc: Global, words: &[Word]) -> Result<Word, AllocError> {
    let name = match words {
        [_, file, ..] => String::from_str(alloc, file.as_str())?,
        _ => String::new(alloc),
    };
    Ok(Word::from_string(name))
}

fn run(rt: &HostRuntime) -> Result<Status, AllocError> {
    let alloc = rt.alloc();
    let words = words(alloc, rt)?;
    let mut src = LazyFile::new(rt.clone()?, file_name(alloc, &words)?);
    let mut out = WriterSink::new(io::writer(rt));
    Ok(script(alloc, &words, &mut src, &mut out))
}

fn main(rt: HostRuntime) -> ExitCode {
    let status = match run(&rt) {
        Ok(status) => status,
        Err(_) => Status::OutOfMemory,
    };
    ExitCode::from(status.number())
}
