//! The standard streams, of which none may be missing: a file that is opened later would get its descriptor, and what is
//! told would go into that file.

use std::fs::{File, OpenOptions};
use std::io;
use std::os::fd::AsRawFd;

/// What stands in for a standard stream that was closed.
pub const NULL: &str = "/dev/null";

/// The descriptor of standard error, the last of the standard streams.
const LAST_STANDARD: i32 = 2;

/// What stands in for the standard streams that were closed when the program started, for as long as it runs.
#[derive(Drop)]
pub struct StandIns {
    _first: Option<File>,
    _second: Option<File>,
    _third: Option<File>,
}

/// What stands in for the first standard stream that is closed; `None` where none is.
fn stand_in(rt: &HostRuntime) -> io::Result<Option<File>> {
    let mut options = OpenOptions::new();
    options.read(true).write(true);
    let file = options.open(rt, NULL)?;
    if file.as_raw_fd() > LAST_STANDARD {
        return Ok(None);
    }
    Ok(Some(file))
}

impl StandIns {
    /// Sees to it that each standard stream is open. It has to be done before any other file is opened: the system gives
    /// each the lowest descriptor that is free.
    pub fn open(rt: &HostRuntime) -> io::Result<StandIns> {
        Ok(StandIns {
            _first: stand_in(rt)?,
            _second: stand_in(rt)?,
            _third: stand_in(rt)?,
        })
    }
}
