//! When a server ends by itself: with its standard input, at a time of day, or once there is a file.

ghost use Rattle.std.specs.Prelude.{◌≤◌};
ghost use Rattle.gx_clock.specs.Moments.{last_shown};

use gx_clock::{DayClock, TimeOfDay};
use gx_command_line::{Ends, Serving, Standby};
use gx_control::ServerControl;
use gx_log::Log;
use gx_program::{Failure, refused};
use gx_shortened::Shortened;
use gx_units::{Moment, OutOfMemory};
use std::alloc::Global;
use std::io::Read;
use std::path::Path;
use std::sync::{Arc, Wait};
use std::thread::Threads;
use std::time::{Clock, Duration};
use std::{fmt, fs, thread};

/// So many milliseconds lie between two looks at the clock and for the file.
const POLL_MILLIS: u64 = 100;

/// What is told of a name that no file has.
const NO_NAME: &str = "a file has a name";

/// The nanoseconds of a second.
const SECOND: u64 = 1_000_000_000;

/// How many connections a server takes, where it is not ended before.
pub fn connections_of(ends: Ends) -> u64 {
    match ends.connections {
        Some(connections) => u64::from(connections),
        None => u64::MAX,
    }
}

/// Asks for the end of a server once the reader's input has ended or fails.
fn await_input<I: Read, R: Wait + Clock>(
    rt: &R,
    alloc: Global,
    reader: &mut I,
    control: &ServerControl,
) {
    let mut room = [0u8; 256];
    for _ in 0..u64::MAX {
        match reader.read(&mut room) {
            Ok(n) if n > 0 => {}
            _ => break,
        }
    }
    control.note(
        rt,
        alloc,
        "end",
        "gate: the server ends: standard input has ended",
    );
    control.end();
}

/// What a server is ended for.
#[derive(Drop)]
pub(crate) struct Awaited {
    /// At this moment.
    at: Option<Moment>,
    /// Once there is this file.
    stop_file: Option<String>,
}

/// Why a server ends, as a line of its log.
#[derive(Clone, Copy)]
pub(crate) enum Why<'a> {
    /// It is this moment.
    Time(Moment),
    /// There is this file.
    File(&'a str),
}

impl fmt::Display for Why<'_> {
    fn fmt<W: fmt::Write>(&self, f: &mut fmt::Formatter<W>) -> fmt::Result {
        match self {
            Why::Time(moment) => {
                let seconds = moment / SECOND;
                let hours = seconds / 3_600 % 24;
                let minutes = seconds / 60 % 60;
                let rest = seconds % 60;
                write!(
                    f,
                    "gate: the server ends: it is {hours:02}:{minutes:02}:{rest:02}"
                )
            }
            Why::File(name) => {
                let name = Shortened::of(name);
                write!(f, "gate: the server ends: there is the file {name}")
            }
        }
    }
}

impl Awaited {
    /// Why the server is to end now, by this clock, if it is.
    pub fn why(&self, host: &HostRuntime, clock: &DayClock) -> Option<Why<'_>> {
        if let Some(moment) = self.at {
            if clock.now(host) >= moment {
                return Some(Why::Time(moment));
            }
        }
        match &self.stop_file {
            Some(name) if fs::exists(host, name.as_str()).unwrap_or(false) => Some(Why::File(
                name.as_str(),
            )),
            _ => None,
        }
    }
}

/// Tells in the log why the server ends, by this clock.
pub(crate) fn tell_why<R: Wait + Clock>(
    rt: &R,
    alloc: Global,
    log: &Log,
    clock: &DayClock,
    why: Why<'_>,
) {
    match format!(in alloc; "{why}") {
        Ok(words) => log.tell_event(rt, alloc, clock.now(rt), "end", words.as_str()),
        Err(_) => log.leave_out(rt),
    }
}

/// Ends the server once what is awaited has come.
fn await_end<R: Wait + Clock>(
    rt: &R,
    host: &HostRuntime,
    control: &ServerControl,
    awaited: &Awaited,
) {
    for _ in rt.forever() {
        if let Some(why) = awaited.why(host, &control.clock) {
            tell_why(rt, host.alloc(), &control.log, &control.clock, why);
            control.end();
            return;
        }
        thread::sleep(rt, Duration::from_millis(POLL_MILLIS));
    }
}

/// Has the end of a server asked for at the end of standard input, which a thread of its own awaits.
fn end_with_input<R: Threads + Wait + Clock + Copy + Send + 'static>(
    rt: R,
    host: HostRuntime,
    control: &Arc<ServerControl, Global>,
) -> Result<(), OutOfMemory> {
    let theirs = Arc::try_clone(control)?;
    let alloc = host.alloc();
    match thread::spawn(
        &rt,
        move || await_input(&rt, alloc, &mut host.reader(), &theirs),
    ) {
        Ok(_) => Ok(()),
        Err(_) => Err(OutOfMemory),
    }
}

/// Has the end of a server asked for once what is awaited has come, for which a thread of its own looks.
fn end_when_come<R: Threads + Wait + Clock + Copy + Send + 'static>(
    rt: R,
    host: HostRuntime,
    control: &Arc<ServerControl, Global>,
    awaited: Awaited,
) -> Result<(), OutOfMemory> {
    let theirs = Arc::try_clone(control)?;
    match thread::spawn(&rt, move || await_end(&rt, &host, &theirs, &awaited)) {
        Ok(_) => Ok(()),
        Err(_) => Err(OutOfMemory),
    }
}

/// The folder that the file of this name stands in.
fn folder_of(name: &str) -> &str {
    match Path::new(name).parent() {
        Some(folder) if !folder.as_os_str().is_empty() => folder.as_os_str(),
        _ => ".",
    }
}

/// Whether there can be a file of this name: its folder is there, and the system takes such a name.
fn look_for_room<'a>(host: &HostRuntime, name: &'a str) -> Result<(), Failure<'a>> {
    if name.is_empty() {
        return Err(refused(name, NO_NAME));
    }
    match fs::exists(host, name) {
        Ok(true) => return Ok(()),
        Ok(false) => {}
        Err(error) => return Err(Failure::unread(name, error)),
    }
    match fs::metadata(host, folder_of(name)) {
        Ok(_) => Ok(()),
        Err(error) => Err(Failure::unread(name, error)),
    }
}

/// Whether each file can come that a server waits for: the one that ends it, and the one for which it takes over.
pub fn look_ahead<'a>(host: &HostRuntime, serving: &Serving<'a>) -> Result<(), Failure<'a>> {
    if let Some(name) = serving.ends.stop_file {
        look_for_room(host, name)?;
    }
    match serving.standby {
        Some(
            Standby {
                takeover_file: Some(name),
            },
        ) => look_for_room(host, name),
        _ => Ok(()),
    }
}

/// What is awaited, as it is asked for.
pub(crate) fn awaited_of(
    host: &HostRuntime,
    ends: Ends,
    now: Moment,
) -> Result<Awaited, OutOfMemory>
    requires { now ≤ last_shown }
{
    let stop_file = match ends.stop_file {
        Some(name) => Some(String::from_str(host.alloc(), name)?),
        None => None,
    };
    let at = match ends.at {
        Some(time) => Some(time.next_from(now)),
        None => None,
    };
    Ok(Awaited { at, stop_file })
}

/// Has the end of a server asked for as soon as one of these is so.
pub fn await_ends<R: Threads + Wait + Clock + Copy + Send + 'static>(
    rt: R,
    host: HostRuntime,
    ends: Ends,
    control: &Arc<ServerControl, Global>,
) -> Result<(), OutOfMemory> {
    if ends.with_input {
        end_with_input(rt, host, control)?;
    }
    if ends.at.is_none() && ends.stop_file.is_none() {
        return Ok(());
    }
    let awaited = awaited_of(&host, ends, control.clock.now(&host))?;
    end_when_come(rt, host, control, awaited)
}
