//! Checks C files by checkers.
#![tactic(auto)]

mod styles;

use crate::styles::run_in_styles;
use command::Status;
use mx_io::{OsFiles, OsSink};
use std::alloc::AllocError;
use std::env;
use std::io::ErrorKind;
use std::process::ExitCode;

/// The words of the command, without the program's name. Where one of them isn't text they are no command's, so they count as none.
fn words_of(rt: &HostRuntime) -> Result<Vec<String>, AllocError> {
    let mut words = Vec::new(rt.alloc());
    match env::args(rt) {
        Ok(args) => {
            for word in args.skip(1) {
                words.push(word)?;
            }
        }
        Err(error) if error.kind() == ErrorKind::OutOfMemory => return Err(AllocError),
        Err(_) => {}
    }
    Ok(words)
}

/// Runs the command with the words, the files and the streams of the system.
fn run_command(rt: &HostRuntime) -> Result<Status, AllocError> {
    let alloc = rt.alloc();
    let words = words_of(rt)?;
    let mut files = OsFiles::new(rt, alloc);
    let mut out = OsSink::new(rt.stdout());
    let mut errs = OsSink::new(rt.stderr());
    Ok(run_in_styles(alloc, &words, &mut files, &mut out, &mut errs))
}

fn main(rt: HostRuntime) -> ExitCode {
    match run_command(&rt) {
        Ok(status) => ExitCode::from(status.code()),
        Err(_) => ExitCode::from(Status::NoMemory.code()),
    }
}
