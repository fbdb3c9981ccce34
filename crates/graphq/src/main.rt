//! The program: it makes the real files, input and output of `gq_io`, calls `gq_shell::run`, and ends with the status
//! that it answers.
#![tactic(auto)]

use gq_base::Memory;
use gq_io::{RealFiles, RealSink, RealSource};
use gq_shell::{Status, run};
use std::process::ExitCode;
use std::{env, io};

// What failed, where a status says that something did which no line of the output tells.
fn failure(status: Status) -> Option<&'static str> {
    match status {
        Status::ReadFault => Some("a file or the input could not be read"),
        Status::WriteFault => Some("the output could not be written"),
        Status::Memory(Memory::Exhausted) => Some("there was not enough memory"),
        Status::Memory(Memory::Limit) => {
            Some("a statement asks for more work, or more memory, than one statement may take")
        }
        Status::TooLong => Some("a statement or the input is too long"),
        Status::Ended | Status::Refused | Status::Usage | Status::NotLoaded => None,
    }
}

// Ends with a status, and says what failed.
fn end(rt: &HostRuntime, status: Status) -> ExitCode {
    if let Some(failure) = failure(status) {
        let _ = eprintln!(rt; "graphq: {failure}");
    }
    ExitCode::from(status.code())
}

// The words; or none, with a line that says so, where they are no text: no words are no use of the program either.
fn words_of(rt: &HostRuntime) -> Result<Vec<String>, Memory> {
    match env::args(rt) {
        Ok(args) => {
            let Ok(words) = args.collect::<Vec<String>>(rt.alloc()) else {
                return Err(Memory::Exhausted);
            };
            Ok(words)
        }
        Err(error) => {
            if error.kind() == io::ErrorKind::OutOfMemory {
                return Err(Memory::Exhausted);
            }
            let _ = eprintln!(rt; "graphq: the words are no text");
            Ok(Vec::new(rt.alloc()))
        }
    }
}

fn main(rt: HostRuntime) -> ExitCode {
    let words = match words_of(&rt) {
        Ok(words) => words,
        Err(memory) => return end(&rt, Status::Memory(memory)),
    };
    let mut files = RealFiles::new(&rt);
    let mut input = RealSource::new(rt.reader());
    let mut out = RealSink::new(io::writer(&rt));
    let status = run(
        rt.alloc(),
        words.as_slice(),
        &mut files,
        &mut input,
        &mut out,
    );
    end(&rt, status)
}
