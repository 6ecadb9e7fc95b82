//! The program `antrea`.
#![tactic(auto)]

use cl_io::{StdFiles, StdSink};
use std::env;
use std::io::{self, ErrorKind};
use std::process::ExitCode;
use suite_run::{Site, Status, calm};

/// The exit status where the runtime refuses the arguments, as where they aren't UTF-8.
const NO_ARGUMENTS: u8 = 8;

// The words after the program's name.
fn words_of(rt: &HostRuntime) -> io::Result<Vec<String>> {
    let mut args = env::args(rt)?;
    let _program = args.next();
    let mut words = Vec::new(rt.alloc());
    for word in args {
        words.push(word)?;
    }
    Ok(words)
}

fn run(rt: &HostRuntime, words: &Vec<String>) -> Status {
    let Ok(handle) = rt.clone() else {
        return Status::NoMemory;
    };
    let mut files = StdFiles::new(handle);
    let mut out = StdSink::new(rt.stdout());
    let mut err = StdSink::new(rt.stderr());
    calm(
        rt.alloc(),
        words,
        &mut files,
        &mut out,
        &mut err,
        &mut Site::new(),
    )
}

fn main(rt: HostRuntime) -> ExitCode {
    match words_of(&rt) {
        Ok(words) => ExitCode::from(run(&rt, &words).exit_code()),
        Err(e) if e.kind() == ErrorKind::OutOfMemory => {
            ExitCode::from(Status::NoMemory.exit_code())
        }
        Err(_) => ExitCode::from(NO_ARGUMENTS),
    }
}
