//! The files that the arguments name: told apart, and read within their limits.

ghost use Rattle.std.specs.Prelude.{◌-◌, ◌<◌};

use crate::ending::Failure;
use gx_devices::CallCounter;
use gx_files::{FileIdentity, ReadFault, read_within, shared_file};
use gx_server::{ErrorRecorder, ProgramFault};
use gx_units::OutOfMemory;
use std::fs;
use std::fs::{File, Metadata};
use std::io::{Error, ErrorKind, Read};
use std::os::unix::fs::MetadataExt;

/// What is told of a file that is a folder, a device, a pipe or the like.
const NOT_REGULAR: &str = "not a regular file";

/// What a file is to hold.
#[derive(Clone, Copy)]
pub enum Content {
    /// A policy.
    Policy,
    /// A password, in its first line.
    Password,
    /// The records of a day: an audit or a journal.
    Records,
}

impl Content {
    /// The most bytes that such a file has: for records, a header and 16,777,537 records of 128 bytes, which are more than a
    /// day can have.
    fn most(self) -> usize {
        match self {
            Content::Policy => 16_777_216,
            Content::Password => 4_096,
            Content::Records => 2_147_524_864,
        }
    }

    /// What is told of a file that has more.
    pub fn too_long(self) -> &'static str {
        match self {
            Content::Policy => "longer than a policy may be, 16777216 bytes",
            Content::Password => "longer than a password's file may be, 4096 bytes",
            Content::Records => "longer than a day's records can be, 2147524864 bytes",
        }
    }
}

/// The names of a run's files.
#[derive(Clone, Copy)]
pub struct Named<'a> {
    /// The policy.
    pub policy: Option<&'a str>,
    /// The journal.
    pub journal: Option<&'a str>,
    /// The audit.
    pub audit: Option<&'a str>,
}

/// Which regular file this is; `None` for any other.
pub fn identity_of(found: &Metadata) -> Option<FileIdentity> {
    if !found.is_file() {
        return None;
    }
    Some(FileIdentity {
        device: found.dev(),
        inode: found.ino(),
    })
}

/// Which regular file has this name now; `None` where none has, or where that can't be told.
pub fn file_named(rt: &HostRuntime, path: &str) -> Option<FileIdentity> {
    match fs::metadata(rt, path) {
        Ok(found) => identity_of(&found),
        Err(_) => None,
    }
}

/// Whether no two of the files are one, as far as they are there.
pub fn tell_apart<'a>(rt: &HostRuntime, named: Named) -> Result<(), Failure<'a>> {
    let policy = named.policy.and_then(|path| file_named(rt, path));
    let journal = named.journal.and_then(|path| file_named(rt, path));
    let audit = named.audit.and_then(|path| file_named(rt, path));
    match shared_file(policy, journal, audit) {
        Some(pair) => Err(ProgramFault::OneFile(pair).into()),
        None => Ok(()),
    }
}

/// That a file is refused, in these words.
pub fn refused<'a>(path: &'a str, why: &str) -> Failure<'a> {
    Failure::unread(path, Error::new(ErrorKind::InvalidData, why))
}

/// Whether a file of this kind and length may be read.
fn look_at<'a>(path: &'a str, content: Content, found: &Metadata) -> Result<(), Failure<'a>> {
    if !found.is_file() {
        return Err(refused(path, NOT_REGULAR));
    }
    if found.len() > content.most() as u64 {
        return Err(refused(path, content.too_long()));
    }
    Ok(())
}

/// Whether the file of this name may be read, where there is one: it is looked at before it is opened, since to open a pipe
/// waits for its other end.
pub fn look_before<'a>(
    rt: &HostRuntime,
    path: &'a str,
    content: Content,
) -> Result<(), Failure<'a>> {
    match fs::metadata(rt, path) {
        Ok(found) => look_at(path, content, &found),
        Err(_) => Ok(()),
    }
}

/// How many bytes are expected of a file: as many as it has now, as far as that can be told.
pub fn expected_of(file: &File) -> usize {
    match file.metadata() {
        Ok(found) => found.len() as usize,
        Err(_) => 0,
    }
}

/// What the file has, where that is no more than it may have; so many bytes are expected.
pub fn read_file<'a, R: Read + Drop>(
    rt: &HostRuntime,
    path: &'a str,
    content: Content,
    file: R,
    expected: usize,
) -> Result<Vec<u8>, Failure<'a>> {
    let mut reader = CallCounter::new(ErrorRecorder::new(file));
    match read_within(rt.alloc(), &mut reader, content.most(), expected) {
        Ok(bytes) => Ok(bytes),
        Err(ReadFault::OutOfMemory) => Err(OutOfMemory.into()),
        Err(ReadFault::TooLong) => Err(refused(path, content.too_long())),
        Err(ReadFault::ReadFailed) => match reader.into_inner().cause {
            Some(error) => Err(Failure::unread(path, error)),
            None => Err(ProgramFault::Unread.into()),
        },
    }
}

/// The bytes of a file.
pub fn bytes_of<'a>(
    rt: &HostRuntime,
    path: &'a str,
    content: Content,
) -> Result<Vec<u8>, Failure<'a>> {
    look_before(rt, path, content)?;
    match File::open(rt, path) {
        Ok(file) => {
            let expected = expected_of(&file);
            read_file(rt, path, content, file, expected)
        }
        Err(error) => Err(Failure::unread(path, error)),
    }
}
