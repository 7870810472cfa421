//! The file of a journal that another program writes.

ghost use Rattle.std.specs.Prelude.{◌≤◌, IfOk, length};

use crate::ending::Failure;
use crate::files::{file_named, identity_of};
use gx_devices::CallCounter;
use std::fs::File;
use std::io::{Read, Seek, SeekFrom};

/// So many of its bytes are read at a time.
pub const PIECE: usize = 65_536;

/// What is told of a journal in whose place another file stands, or none.
pub const MOVED: &str = "another file has its name, or none";

/// Goes to this place of the file.
pub fn go_to<'a>(path: &'a str, file: &mut File, place: u64) -> Result<(), Failure<'a>> {
    match file.seek(SeekFrom::Start(place)) {
        Ok(_) => Ok(()),
        Err(error) => Err(Failure::unread(path, error)),
    }
}

/// Reads once: how many bytes came.
pub fn read_once<'a>(path: &'a str, file: &mut File, room: &mut [u8]) -> Result<usize, Failure<'a>>
    ensures few { IfOk result (λ n. n ≤ length room.new) }
{
    match CallCounter::new(file).read(room) {
        Ok(count) => Ok(count),
        Err(error) => Err(Failure::unread(path, error)),
    }
}

/// How many bytes the file has, if it still has its name.
pub fn length_named<'a>(
    host: &HostRuntime,
    path: &'a str,
    file: &File,
) -> Result<Option<u64>, Failure<'a>> {
    match file.metadata() {
        Ok(found) if identity_of(&found) == file_named(host, path) => Ok(Some(found.len())),
        Ok(_) => Ok(None),
        Err(error) => Err(Failure::unread(path, error)),
    }
}
