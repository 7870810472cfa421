//! A server that stands by: it follows the journal of another one, and takes over once that has ended.

use crate::ends::{Awaited, awaited_of, tell_why};
use crate::keeping::{Day, Found, go_on_from, is_ours};
use crate::starts::Start;
use gx_access_gate::AccessGate;
use gx_audit::AuditFault;
use gx_audit_bytes::{AuditVersion, RECORD_SIZE};
use gx_clock::DayClock;
use gx_command_line::{JournalFile, Serving, Standby};
use gx_follower::Follower;
use gx_log::Log;
use gx_policy::Policy;
use gx_program::{Content, Failure, MOVED, PIECE, go_to, length_named, read_once, refused};
use gx_records::NoWatch;
use gx_server::ProgramFault;
use gx_shortened::Shortened;
use gx_units::OutOfMemory;
use std::fs::File;
use std::sync::Wait;
use std::time::{Clock, Duration};
use std::{fs, thread};

/// So many milliseconds lie between two looks at a journal that has nothing new.
const POLL_MILLIS: u64 = 50;

/// What is told of a journal that has become shorter.
const SHORTER: &str = "another program has made the file shorter";

/// A server that took over: when it did, and the day that goes on.
pub struct TakenOver<G> {
    /// When it did.
    pub start: Start,
    /// The day that goes on. Its gate is closed, and never dropped.
    pub day: Day<G>,
}

/// What a standby looks at.
#[derive(Drop)]
struct Looking<'a, 'l> {
    /// The name of the journal.
    path: &'a str,
    /// When it takes over.
    standby: Standby<'a>,
    /// What it ends for.
    awaited: Awaited,
    /// The clock that it ends by.
    clock: DayClock,
    log: &'l Log,
}

/// Whether these are the first bytes of an audit that has no header, and so no journal's.
fn is_bare<G: AccessGate>(follower: &Follower<G>, bytes: &[u8]) -> bool {
    follower.whole() == 0 && bytes.len() >= RECORD_SIZE && !AuditVersion::of(bytes).has_header()
}

/// Has the follower read these bytes.
fn take<'a, G: AccessGate>(
    path: &'a str,
    follower: &mut Follower<G>,
    bytes: &[u8],
) -> Result<(), Failure<'a>> {
    if !follower.has_room(bytes.len()) {
        return Err(refused(path, Content::Records.too_long()));
    }
    if is_bare(follower, bytes) {
        return Err(ProgramFault::from(AuditFault::OtherPolicy).into());
    }
    match follower.take(bytes, &mut NoWatch) {
        Ok(()) => Ok(()),
        Err(fault) => Err(ProgramFault::from(fault).into()),
    }
}

/// Reads a piece of the journal, and takes what is whole of it: a server that is started anew cuts off what is not, and writes
/// other bytes there. Answers whether the piece was as long as one may be.
fn follow_once<'a, G: AccessGate>(
    path: &'a str,
    file: &mut File,
    follower: &mut Follower<G>,
    room: &mut [u8],
) -> Result<bool, Failure<'a>> {
    go_to(path, file, follower.whole())?;
    let count = read_once(path, file, room)?;
    let whole = count - count % RECORD_SIZE;
    take(path, follower, &room[..whole])?;
    Ok(count == room.len())
}

/// Reads what is left of the journal, which nobody else writes any more.
fn follow_rest<'a, G: AccessGate>(
    path: &'a str,
    file: &mut File,
    follower: &mut Follower<G>,
    room: &mut [u8],
) -> Result<(), Failure<'a>> {
    go_to(path, file, follower.whole())?;
    for _ in 0..u64::MAX {
        let count = read_once(path, file, room)?;
        if count == 0 {
            break;
        }
        take(path, follower, &room[..count])?;
    }
    Ok(())
}

/// Whether it is asked for that the standby takes over.
fn is_asked(host: &HostRuntime, standby: Standby) -> bool {
    match standby.takeover_file {
        Some(name) => fs::exists(host, name).unwrap_or(false),
        None => true,
    }
}

/// Follows the journal until no other server keeps it, and this one does. False where the standby is to end before.
fn await_turn<'a, R: Wait + Clock, G: AccessGate>(
    rt: &R,
    host: &HostRuntime,
    looking: &Looking<'a, '_>,
    file: &mut File,
    follower: &mut Follower<G>,
    room: &mut [u8],
) -> Result<bool, Failure<'a>> {
    for _ in rt.forever() {
        let is_long = follow_once(looking.path, file, follower, room)?;
        if let Some(why) = looking.awaited.why(host, &looking.clock) {
            tell_why(rt, host.alloc(), looking.log, &looking.clock, why);
            return Ok(false);
        }
        if is_asked(host, looking.standby) && is_ours(looking.path, file)? {
            return Ok(true);
        }
        if !is_long {
            thread::sleep(rt, Duration::from_millis(POLL_MILLIS));
        }
    }
    Ok(false)
}

/// Whether the journal is still the file of its name, and has all that was read of it: how long it is.
fn look_at_end<'a>(
    host: &HostRuntime,
    path: &'a str,
    file: &File,
    read: u64,
) -> Result<u64, Failure<'a>> {
    let Some(length) = length_named(host, path, file)? else {
        return Err(refused(path, MOVED));
    };
    if length < read {
        return Err(refused(path, SHORTER));
    }
    Ok(length)
}

/// Follows the journal until it is this server's, and reads all of it: how long it is. `None` where the standby is to end
/// before.
fn follow<'a, R: Wait + Clock, G: AccessGate>(
    rt: &R,
    host: &HostRuntime,
    looking: &Looking<'a, '_>,
    file: &mut File,
    follower: &mut Follower<G>,
) -> Result<Option<u64>, Failure<'a>> {
    let mut room = Vec::new(host.alloc());
    if room.resize(PIECE, 0u8).is_err() {
        return Err(OutOfMemory.into());
    }
    let room = room.as_mut_slice();
    if !await_turn(rt, host, looking, file, follower, room)? {
        return Ok(None);
    }
    let length = look_at_end(host, looking.path, file, follower.whole())?;
    follow_rest(looking.path, file, follower, room)?;
    Ok(Some(length))
}

/// The day that was followed. One that is begun is kept in the version that is asked for.
fn found_of<'a, G: AccessGate>(
    follower: Follower<G>,
    length: u64,
    asked: AuditVersion,
) -> Result<Found<G>, Failure<'a>> {
    let version = follower.version().unwrap_or(asked);
    match follower.into_resumed() {
        Ok(resumed) => Ok(Found {
            version: if resumed.kept > 0 { version } else { asked },
            resumed,
            length,
        }),
        Err(fault) => Err(ProgramFault::from(fault).into()),
    }
}

/// Tells in the log what the standby does.
fn tell<R: Wait + Clock>(rt: &R, host: &HostRuntime, looking: &Looking<'_, '_>, words: &str) {
    let moment = looking.clock.now(host);
    looking
        .log
        .tell_event(rt, host.alloc(), moment, "standby", words);
}

/// Tells that the standby follows its journal.
fn tell_begin<R: Wait + Clock>(rt: &R, host: &HostRuntime, looking: &Looking<'_, '_>) {
    let name = Shortened::of(looking.path);
    match format!(in host.alloc(); "gate: the server stands by: it follows {name}") {
        Ok(words) => tell(rt, host, looking, words.as_str()),
        Err(_) => looking.log.leave_out(rt),
    }
}

/// Tells that the standby takes over.
fn tell_turn<R: Wait + Clock>(rt: &R, host: &HostRuntime, looking: &Looking<'_, '_>, count: u64) {
    match format!(in host.alloc(); "gate: the server takes over: {count} records are kept") {
        Ok(words) => tell(rt, host, looking, words.as_str()),
        Err(_) => looking.log.leave_out(rt),
    }
}

/// What a standby looks at, which begins now.
fn begin_looking<'a, 'l>(
    host: &HostRuntime,
    serving: &Serving<'a>,
    standby: Standby<'a>,
    path: &'a str,
    start: Start,
    log: &'l Log,
) -> Result<Looking<'a, 'l>, OutOfMemory> {
    let clock = start.clock(serving.midnight, 0);
    let awaited = awaited_of(host, serving.ends, clock.now(host))?;
    Ok(Looking {
        path,
        standby,
        awaited,
        clock,
        log,
    })
}

/// Follows the journal, whose file is open, until it is this server's: the day that it holds. `None` where the standby is to
/// end before.
fn followed<'a, R: Wait + Clock, G: AccessGate>(
    rt: &R,
    host: &HostRuntime,
    policy: &Policy,
    looking: &Looking<'a, '_>,
    file: &mut File,
) -> Result<Option<(Follower<G>, u64)>, Failure<'a>> {
    let mut follower: Follower<G> = Follower::open(host.alloc(), policy)?;
    match follow(rt, host, looking, file, &mut follower) {
        Ok(Some(length)) => Ok(Some((follower, length))),
        Ok(None) => {
            follower.close();
            Ok(None)
        }
        Err(ended) => {
            follower.close();
            Err(ended)
        }
    }
}

/// Follows the journal until it is this server's: when that was, and the day as its file holds it. `None` where the standby is to
/// end before.
fn stand_by<'a, R: Wait + Clock, G: AccessGate>(
    rt: &R,
    host: &HostRuntime,
    policy: &Policy,
    serving: &Serving<'a>,
    looking: &Looking<'a, '_>,
    file: &mut File,
) -> Result<Option<(Start, Found<G>)>, Failure<'a>> {
    tell_begin(rt, host, looking);
    let Some((follower, length)) = followed::<R, G>(rt, host, policy, looking, file)? else {
        return Ok(None);
    };
    let start = Start::of_run(rt, serving.files.version, serving.midnight);
    let found = found_of(follower, length, start.version)?;
    tell_turn(rt, host, looking, found.resumed.gate.length());
    Ok(Some((start, found)))
}

/// The day that was found, which goes on; `None` where none was.
fn taken_over<'a, G: AccessGate>(
    host: &HostRuntime,
    policy: &Policy,
    journal: JournalFile<'a>,
    file: File,
    found: Option<(Start, Found<G>)>,
) -> Result<Option<TakenOver<G>>, Failure<'a>> {
    let Some((start, found)) = found else {
        return Ok(None);
    };
    match go_on_from(host, policy, journal, file, found) {
        Ok(day) => Ok(Some(TakenOver { start, day })),
        Err(ended) => Err(ended),
    }
}

/// Stands by until the journal, whose file is open, is this server's: when that was, and the day that goes on. `None` where the
/// server is to end before.
pub fn take_over<'a, R: Wait + Clock, G: AccessGate>(
    rt: &R,
    host: &HostRuntime,
    policy: &Policy,
    serving: &Serving<'a>,
    standby: Standby<'a>,
    journal: JournalFile<'a>,
    file: File,
    start: Start,
    log: &Log,
) -> Result<Option<TakenOver<G>>, Failure<'a>> {
    let mut file = file;
    let looking = begin_looking(host, serving, standby, journal.path, start, log)?;
    match stand_by(rt, host, policy, serving, &looking, &mut file) {
        Ok(found) => taken_over(host, policy, journal, file, found),
        Err(ended) => Err(ended),
    }
}
