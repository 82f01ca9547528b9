//! The program: it opens what the words name, calls `run`, and ends with the status of its answer.
#![tactic(auto)]

use std::fs::File;
use std::io::{self, ErrorKind};
use std::process::ExitCode;
use trace_cmd::{Status, image_name, run};
use trace_io::{BufferedSink, NoSource, SafeSource, Source, StdSource};

/// The exit status where the system refuses the words, as one that is not UTF-8.
const WORDS_REFUSED: u8 = 10;

/// Reads the words, without the name of the program.
fn words(rt: &HostRuntime) -> Result<Vec<String>, u8> {
    match std::env::args(rt) {
        Ok(args) => args
            .skip(1)
            .collect(rt.alloc())
            .map_err(|_| Status::NoMemory.code()),
        Err(error) if error.kind() == ErrorKind::OutOfMemory => Err(Status::NoMemory.code()),
        Err(_) => Err(WORDS_REFUSED),
    }
}

/// Calls `run` over standard input and standard output, and gives the status of its answer.
fn call<I: Source>(rt: &HostRuntime, words: &[String], image: &mut I) -> u8 {
    match BufferedSink::new(rt.alloc(), rt.stdout()) {
        Ok(mut out) => {
            let mut input = StdSource::new(rt.stdin());
            run(rt.alloc(), words, image, &mut input, &mut out).code()
        }
        Err(_) => Status::NoMemory.code(),
    }
}

/// Opens the image that the words name, and calls `run`.
fn status(rt: &HostRuntime, words: &[String]) -> u8 {
    let Some(name) = image_name(words) else {
        let mut nothing = SafeSource::new(Vec::new(rt.alloc()), 1);
        return call(rt, words, &mut nothing);
    };
    match File::open(rt, name) {
        Ok(file) => call(rt, words, &mut StdSource::new(file)),
        Err(error) if error.kind() == ErrorKind::OutOfMemory => Status::NoMemory.code(),
        Err(_) => call(rt, words, &mut NoSource::new()),
    }
}

fn main(rt: HostRuntime) -> ExitCode {
    let code = match words(&rt) {
        Ok(words) => status(&rt, &words),
        Err(code) => code,
    };
    ExitCode::from(code)
}
