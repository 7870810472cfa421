//! The arguments: read, and told of where they can't be meant.

use crate::ending::{Failure, Resource, tell};
use clap::Error;
use clap::error::ErrorKind as UsageFault;
use gx_command_line::{BadCall, Invocation, LONGEST_WORD, first_bad_word};
use gx_units::OutOfMemory;
use std::io::ErrorKind;
use std::process::ExitCode;

/// The words of the command line; `None` where one is not UTF-8.
pub fn words_of(rt: &HostRuntime) -> Result<Option<Vec<String>>, OutOfMemory> {
    match std::env::args(rt) {
        Ok(words) => Ok(Some(words.collect(rt.alloc())?)),
        Err(error) if error.kind() == ErrorKind::InvalidData => Ok(None),
        Err(_) => Err(OutOfMemory),
    }
}

/// Tells what is wrong with the arguments, or gives the help or the version that was asked for.
fn tell_usage(rt: &HostRuntime, error: &Error) -> ExitCode {
    if error.kind() == UsageFault::OutOfMemory {
        return tell(rt, OutOfMemory.into());
    }
    match error.print(rt) {
        Ok(()) => ExitCode::from(error.exit_code() as u8),
        Err(error) => tell(rt, Failure::unwritten(Resource::Output, error)),
    }
}

/// Tells which argument is not UTF-8.
pub fn tell_bad_word(rt: &HostRuntime) -> ExitCode {
    let mut room = Vec::new(rt.alloc());
    if room.resize(LONGEST_WORD, 0u8).is_err() {
        return tell(rt, OutOfMemory.into());
    }
    if let Some(word) = first_bad_word(rt, room.as_mut_slice()) {
        let _ = eprint!(rt; "{word}");
    }
    ExitCode::from(2)
}

/// Reads the arguments: what they ask for, or the status of what was told.
pub fn asked_of<'a>(rt: &HostRuntime, words: &'a [String]) -> Result<Invocation<'a>, ExitCode> {
    match gx_command_line::read(rt.alloc(), words) {
        Ok(Some(asked)) => Ok(asked),
        Ok(None) => Err(ExitCode::SUCCESS),
        Err(BadCall::Words(error)) => Err(tell_usage(rt, &error)),
        Err(BadCall::Value(bad)) => {
            let _ = eprint!(rt; "{bad}");
            Err(ExitCode::from(2))
        }
    }
}
