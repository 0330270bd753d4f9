// The program kprove: `run` of kp_program does all that it does, over a shelf, a source and sinks; `main` makes the real
// ones.
#![tactic(auto)]

use kp_io::{Disk, Incoming, Outgoing};
use kp_program::run;
use std::alloc::AllocError;
use std::env;
use std::io::ErrorKind;
use std::process::ExitCode;

/// The words of the command line; none where a word isn't UTF-8, which is no command.
fn words_of(rt: &HostRuntime) -> Result<Vec<String>, AllocError> {
    match env::args(rt) {
        Ok(arguments) => Ok(arguments.collect(rt.alloc())?),
        Err(error) if error.kind() == ErrorKind::OutOfMemory => Err(AllocError),
        Err(_) => Ok(Vec::new(rt.alloc())),
    }
}

/// The program: its words, its files, and the status that it ends with.
fn main(rt: HostRuntime) -> ExitCode {
    let Ok(words) = words_of(&rt) else {
        return ExitCode::from(7);
    };
    let mut shelf = Disk::new(&rt);
    let mut input = Incoming::new(rt.stdin());
    let mut out = Outgoing::new(rt.stdout());
    let mut err = Outgoing::new(rt.stderr());
    ExitCode::from(run(
        &rt,
        rt.alloc(),
        &words,
        &mut shelf,
        &mut input,
        &mut out,
        &mut err,
    ))
}
