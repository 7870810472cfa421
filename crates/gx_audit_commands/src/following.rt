//! `gate follow`: a journal that grows, checked and told as its records come.

ghost use Rattle.std.specs.Prelude.{◌≤◌, IfOk, length};

use crate::telling::{words_of, write};
use gx_audit::AuditFault;
use gx_audit_bytes::RECORD_SIZE;
use gx_command_line::{AuditFiles, FollowAsked};
use gx_policy::Policy;
use gx_program::{
    Content, Failure, MOVED, PIECE, go_to, length_named, look_before, policy_of, print, read_once,
    refused,
};
use gx_records::{ShowsRecords, ShowsState};
use gx_text::{Form, append};
use gx_units::OutOfMemory;
use gx_watch::Watch;
use std::alloc::Global;
use std::fs::File;
use std::io::{Error, ErrorKind};
use std::process::ExitCode;
use std::sync::Wait;
use std::thread;
use std::time::{Clock, Duration};

/// What is told of a journal that has become shorter than what was read of its whole records.
const SHORTER: &str = "another program has made the file shorter: it has lost whole records";

/// Why a journal is followed no further.
#[derive(Drop)]
enum FollowError<'a> {
    /// Its bytes are none of a legal day.
    Fault(AuditFault),
    /// The program gives up.
    Failure(Failure<'a>),
}

impl<'a> From<OutOfMemory> for FollowError<'a> {
    fn from(refused: OutOfMemory) -> FollowError<'a> {
        FollowError::Failure(refused.into())
    }
}

/// The file of the journal, open to be read; `None` where there is none of its name.
fn open_file<'a>(host: &HostRuntime, path: &'a str) -> Result<Option<File>, Failure<'a>> {
    look_before(host, path, Content::Records)?;
    match File::open(host, path) {
        Ok(file) => Ok(Some(file)),
        Err(error) if error.kind() == ErrorKind::NotFound => Ok(None),
        Err(error) => Err(Failure::unread(path, error)),
    }
}

/// Waits for so long as is asked for between two looks.
fn pause<R: Wait + Clock>(rt: &R, asked: FollowAsked) {
    thread::sleep(rt, Duration::from_millis(asked.every.milliseconds));
}

/// The file of the journal, for which is waited unless it is read once.
fn await_file<'a, R: Wait + Clock>(
    rt: &R,
    host: &HostRuntime,
    path: &'a str,
    asked: FollowAsked,
) -> Result<File, Failure<'a>> {
    for _ in rt.forever() {
        if let Some(file) = open_file(host, path)? {
            return Ok(file);
        }
        if asked.is_once {
            break;
        }
        pause(rt, asked);
    }
    let gone = Error::new(ErrorKind::NotFound, "there is no such file");
    Err(Failure::unread(path, gone))
}

/// Whether the file still has its name, and so many bytes.
fn look_at_file<'a>(
    host: &HostRuntime,
    path: &'a str,
    file: &File,
    whole: u64,
) -> Result<(), Failure<'a>> {
    let Some(length) = length_named(host, path, file)? else {
        return Err(refused(path, MOVED));
    };
    if length < whole {
        return Err(refused(path, SHORTER));
    }
    Ok(())
}

/// Takes a record, and puts what is told of it at the end of the text.
fn take_record<G: ShowsRecords + ShowsState>(
    alloc: Global,
    watch: &mut Watch<G>,
    bytes: &[u8],
    text: &mut Vec<u8>,
) -> Result<(), AuditFault> {
    if !watch.has_room(bytes.len()) {
        return Err(AuditFault::OutOfMemory);
    }
    watch.take(bytes)?;
    let Ok(told) = watch.tell(alloc) else {
        return Err(AuditFault::OutOfMemory);
    };
    match append(text, told.as_slice()) {
        Ok(()) => Ok(()),
        Err(_) => Err(AuditFault::OutOfMemory),
    }
}

/// Takes these records, one after the other, and puts what is told of them at the end of the text.
fn take_records<G: ShowsRecords + ShowsState>(
    alloc: Global,
    watch: &mut Watch<G>,
    bytes: &[u8],
    text: &mut Vec<u8>,
) -> Result<(), AuditFault> {
    for record in bytes.chunks(RECORD_SIZE) {
        take_record(alloc, watch, record, text)?;
    }
    Ok(())
}

/// Takes these records, and tells what is told of them.
fn tell_records<'a, G: ShowsRecords + ShowsState>(
    host: &HostRuntime,
    watch: &mut Watch<G>,
    bytes: &[u8],
) -> Result<(), FollowError<'a>> {
    let mut text = Vec::new(host.alloc());
    let taken = take_records(host.alloc(), watch, bytes, &mut text);
    if let Err(ended) = print(host, text.as_slice()) {
        return Err(FollowError::Failure(ended));
    }
    match taken {
        Ok(()) => Ok(()),
        Err(AuditFault::OutOfMemory) => Err(OutOfMemory.into()),
        Err(fault) => Err(FollowError::Fault(fault)),
    }
}

/// Reads a piece of the journal behind the records that were taken: how many bytes are those of whole records. A server that is
/// started anew cuts off a part of one, and writes other bytes there.
fn read_piece<'a>(
    host: &HostRuntime,
    path: &'a str,
    file: &mut File,
    whole: u64,
    room: &mut [u8],
) -> Result<usize, Failure<'a>>
    ensures few { IfOk result (λ n. n ≤ length room.new) }
{
    look_at_file(host, path, file, whole)?;
    go_to(path, file, whole)?;
    let count = read_once(path, file, room)?;
    Ok(count - count % RECORD_SIZE)
}

/// Takes a piece of the journal: whether there was one.
fn take_piece<'a, G: ShowsRecords + ShowsState>(
    host: &HostRuntime,
    path: &'a str,
    file: &mut File,
    watch: &mut Watch<G>,
    room: &mut [u8],
) -> Result<bool, FollowError<'a>> {
    let count = match read_piece(host, path, file, watch.whole(), room) {
        Ok(count) => count,
        Err(ended) => return Err(FollowError::Failure(ended)),
    };
    tell_records(host, watch, &room[..count])?;
    Ok(count > 0)
}

/// Takes all that the journal has: whether there was anything.
fn take_all<'a, G: ShowsRecords + ShowsState>(
    host: &HostRuntime,
    path: &'a str,
    file: &mut File,
    watch: &mut Watch<G>,
    room: &mut [u8],
) -> Result<bool, FollowError<'a>> {
    let mut has_come = false;
    for _ in 0..u64::MAX {
        if !take_piece(host, path, file, watch, room)? {
            break;
        }
        has_come = true;
    }
    Ok(has_come)
}

/// Follows the journal until its day is closed and nothing more comes.
fn follow_file<'a, R: Wait + Clock, G: ShowsRecords + ShowsState>(
    rt: &R,
    host: &HostRuntime,
    path: &'a str,
    asked: FollowAsked,
    file: &mut File,
    watch: &mut Watch<G>,
) -> Result<(), FollowError<'a>> {
    let mut room = Vec::new(host.alloc());
    if room.resize(PIECE, 0u8).is_err() {
        return Err(OutOfMemory.into());
    }
    for _ in rt.forever() {
        let has_come = take_all(host, path, file, watch, room.as_mut_slice())?;
        if asked.is_once || !has_come && watch.gate().is_day_closed() {
            break;
        }
        pause(rt, asked);
    }
    Ok(())
}

/// Puts what is wrong with the journal at the end of the text.
fn append_fault(text: &mut Vec<u8>, line: &[u8], is_json: bool) -> Result<(), OutOfMemory> {
    if !is_json {
        return append(text, line);
    }
    let words = &line[..line.len().saturating_sub(1)];
    append(text, b"{\"event\":\"not_legal\",\"reason\":\"")?;
    append(text, words)?;
    append(text, b"\"}\n")
}

/// Tells what is wrong with the journal, as its check does: the status that says so.
fn tell_fault<'a>(
    host: &HostRuntime,
    fault: AuditFault,
    is_json: bool,
) -> Result<ExitCode, Failure<'a>> {
    let told = words_of(host, fault)?;
    let mut text = Vec::new(host.alloc());
    append_fault(&mut text, told.line.as_slice(), is_json)?;
    write(host, text.as_slice(), told.status())
}

/// What is wrong with the journal, if anything is, or why the program gave up.
fn fault_of<'a>(ended: Result<(), FollowError<'a>>) -> Result<Option<AuditFault>, Failure<'a>> {
    match ended {
        Ok(()) => Ok(None),
        Err(FollowError::Fault(fault)) => Ok(Some(fault)),
        Err(FollowError::Failure(ended)) => Err(ended),
    }
}

/// How the journal's end is told: the status that says what it is.
fn tell_end<'a>(
    host: &HostRuntime,
    ended: Result<(), FollowError<'a>>,
    left: &[u8],
    is_json: bool,
) -> Result<ExitCode, Failure<'a>> {
    let fault = fault_of(ended)?;
    print(host, left)?;
    let Some(fault) = fault else {
        return Ok(ExitCode::SUCCESS);
    };
    tell_fault(host, fault, is_json)
}

/// How the lines are written.
fn form_of(asked: FollowAsked) -> Form {
    if asked.is_json {
        Form::Json
    } else {
        Form::Text
    }
}

/// What follows the journal under this policy.
fn open_watch<'a, G: ShowsRecords + ShowsState>(
    host: &HostRuntime,
    policy: &Policy,
    asked: FollowAsked,
) -> Result<Watch<G>, Failure<'a>> {
    let Ok(shares) = asked.shares.list(host.alloc()) else {
        return Err(OutOfMemory.into());
    };
    Ok(Watch::open(host.alloc(), policy, form_of(asked), shares.as_slice())?)
}

/// Follows the journal under its policy: the status that says what it is.
fn follow_under<'a, G: ShowsRecords + ShowsState, R: Wait + Clock>(
    rt: &R,
    host: &HostRuntime,
    policy: &Policy,
    path: &'a str,
    asked: FollowAsked,
) -> Result<ExitCode, Failure<'a>> {
    let mut file = await_file(rt, host, path, asked)?;
    let mut watch: Watch<G> = open_watch(host, policy, asked)?;
    let ended = follow_file(rt, host, path, asked, &mut file, &mut watch);
    match watch.close(host.alloc()) {
        Ok(left) => tell_end(host, ended, left.as_slice(), asked.is_json),
        Err(refused) => Err(refused.into()),
    }
}

/// Follows a journal, and tells what its records tell: the status that says what it is, or why the program gave up.
pub fn follow<'a, G: ShowsRecords + ShowsState, R: Wait + Clock>(
    rt: &R,
    host: &HostRuntime,
    files: AuditFiles<'a>,
    asked: FollowAsked<'a>,
) -> Result<ExitCode, Failure<'a>> {
    let policy = policy_of(host, files.policy)?;
    follow_under::<G, R>(rt, host, &policy, files.audit, asked)
}
