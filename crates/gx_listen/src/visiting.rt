//! A connection from its beginning to its end.

ghost use Rattle.std.specs.Prelude.{◌≡◌};
ghost use Rattle.gx_door.specs.Callers.{caller_of};
ghost use Rattle.gx_door.specs.declared.caller.Caller.TheVariants as callers;

use crate::counted::CountedConnections;
use crate::dated::Dated;
use gx_control::{Mishap, Peer, ServerControl, WriterWakeup, words_of};
use gx_devices::CallCounter;
use gx_door::{Caller, Door};
use gx_pass::PassFault;
use gx_reception::{Admits, LineFault, NoLine, Opening};
use gx_serve::{
    Cut, Exclusion, Farewell, Gone, HangUp, Received, SharedConnection, read_to_end, receive,
    run_connection, turn_away,
};
use gx_soup::LoginRequest;
use gx_units::OutOfMemory;
use std::alloc::Global;
use std::io;
use std::io::Read;
use std::net::TcpStream;
use std::sync::Wait;
use std::thread::Threads;
use std::time::{Clock, Duration, Instant};

/// A write of which a peer takes nothing for so many milliseconds fails.
const WRITE_TIMEOUT_MILLIS: u64 = 5_000;

/// So many milliseconds a writer rests at most.
const WRITER_REST_MILLIS: u64 = 1_000;

/// A wrong password that is one too many is answered so many milliseconds later.
const WRONG_PASSWORD_DELAY_MILLIS: u64 = 1_000;

/// Sets a stream up: small packets go out at once, and a write ends in time.
fn set_up(stream: &TcpStream) -> io::Result<()> {
    stream.set_nodelay(true)?;
    stream.set_write_timeout(Some(Duration::from_millis(WRITE_TIMEOUT_MILLIS)))
}

/// What the threads of connections share.
#[derive(Drop)]
pub(crate) struct Hall<'x, D, A, R> {
    pub(crate) rt: &'x R,
    pub(crate) alloc: Global,
    pub(crate) door: &'x D,
    pub(crate) reception: &'x A,
    pub(crate) control: &'x ServerControl,
    pub(crate) counted: &'x CountedConnections,
}

/// Whether the wait is over: so much time has passed, or the clock can't be read.
fn has_waited<R: Clock>(rt: &R, began: &io::Result<Instant>) -> bool {
    match began {
        Ok(began) => match began.elapsed(rt) {
            Ok(since) => since >= Duration::from_millis(WRONG_PASSWORD_DELAY_MILLIS),
            Err(_) => true,
        },
        Err(_) => true,
    }
}

/// Lets a second pass, and lets go of what comes meanwhile. Answers whether the peer is still there: he is not once he has
/// ended, or was hung up on.
fn stays<R: Wait + Clock>(rt: &R, stream: &TcpStream) -> bool {
    let _ = stream.set_read_timeout(Some(Duration::from_millis(WRONG_PASSWORD_DELAY_MILLIS)));
    let began = Instant::now(rt);
    let mut reader = stream;
    let mut buffer = [0u8; 4096];
    for _ in rt.forever() {
        match reader.read(&mut buffer) {
            Ok(0) => return false,
            _ if has_waited(rt, &began) => break,
            _ => {}
        }
    }
    stream.set_read_timeout(None).is_ok()
}

/// Turns a peer away who has no user's password, a second later where that was given too often.
fn turn_stranger_away<D: Door, A: Admits<D>, R: Wait + Clock>(
    hall: &Hall<'_, D, A, R>,
    peer: &Peer,
    login: &LoginRequest,
) -> Gone
    requires stranger { caller_of D.policy login.now.user login.now.password ≡ callers.Stranger }
{
    let stream = &peer.stream;
    let attempts = &hall.control.attempts;
    if attempts.is_one_too_many(hall.rt, login.user, peer.address.ip()) && !stays(hall.rt, stream) {
        return Gone::Quietly;
    }
    turn_away(
        &Dated::new(hall.rt, hall.alloc, hall.control),
        hall.alloc,
        hall.door,
        &hall.control.shutdown,
        hall.reception,
        login,
        &mut CallCounter::new(stream),
    )
}

/// Serves a user who has a line to his end. What his commands ended is told in the log. Answers why he was cut off, if he was.
fn serve_user<D: Door + Sync, A, R: Threads + Wait + Clock + Sync>(
    hall: &Hall<'_, D, A, R>,
    shared: &SharedConnection<D::Pass>,
    opening: Opening,
    stream: &TcpStream,
    wakeup: &WriterWakeup,
) -> Option<Cut>
where
    D::Pass: Send,
{
    let rt = &Dated::new(hall.rt, hall.alloc, hall.control);
    let (_hung_up, listening) = run_connection(
        rt,
        hall.alloc,
        hall.door,
        &hall.control.matcher,
        wakeup,
        &hall.control.shutdown,
        &hall.control.answers,
        shared,
        opening,
        CallCounter::new(stream),
        stream,
        stream,
    );
    listening.cut()
}

/// The wakeup of the writer of the connection of this number, which is notified from now on of what others do.
fn register_wakeup<D, A, R: Wait>(
    hall: &Hall<'_, D, A, R>,
    number: u64,
) -> Result<WriterWakeup, OutOfMemory> {
    let wakeup = WriterWakeup::new(hall.alloc, WRITER_REST_MILLIS)?;
    hall.control
        .writers
        .register(hall.rt, number, wakeup.try_clone()?)?;
    Ok(wakeup)
}

/// Serves a user who has a line to his end, once his writer can be woken. Answers why it ended.
fn serve_admitted<D: Door + Sync, A, R: Threads + Wait + Clock + Sync>(
    hall: &Hall<'_, D, A, R>,
    peer: &Peer,
    pass: D::Pass,
    caller: Caller,
    opening: Opening,
) -> Gone
where
    D::Pass: Send,
{
    let Ok(wakeup) = register_wakeup(hall, peer.number) else {
        return Gone::Quietly;
    };
    let shared = SharedConnection::new(
        &Dated::new(hall.rt, hall.alloc, hall.control),
        pass,
        caller,
    );
    let cut = serve_user(hall, &shared, opening, &peer.stream, &wakeup);
    let farewell = shared.farewell(hall.rt);
    hall.control.writers.remove(hall.rt, peer.number);
    match cut {
        Some(cut) => Gone::Cut(cut),
        None => {
            tell_of(
                hall.rt,
                hall.alloc,
                hall.control,
                peer,
                "ended",
                farewell.words(),
                false,
            );
            Gone::Quietly
        }
    }
}

/// Lets go of what comes, once nothing more is written, until the peer has ended or was hung up on.
fn part<R: Wait>(rt: &R, stream: &TcpStream, gone: Gone) -> Gone {
    stream.finish();
    read_to_end(rt, &mut CallCounter::new(stream));
    gone
}

/// Serves a peer to his end: why it ended.
pub(crate) fn serve_stream<D: Door + Sync, A: Admits<D>, R: Threads + Wait + Clock + Sync>(
    hall: &Hall<'_, D, A, R>,
    peer: &Peer,
) -> Gone
where
    D::Pass: Send,
{
    let stream = &peer.stream;
    if set_up(stream).is_err() {
        return Gone::Quietly;
    }
    let mut reader = CallCounter::new(stream);
    match receive(hall.rt, hall.alloc, hall.door, hall.reception, &mut reader) {
        Received::Admitted(pass, caller, opening) => {
            hall.control.newcomers.leave(hall.rt, peer.number);
            let line = hall.door.line_of(&pass);
            tell_line(hall.rt, hall.alloc, hall.control, peer, line);
            serve_admitted(hall, peer, pass, caller, opening)
        }
        Received::Stranger(login) => {
            let gone = turn_stranger_away(hall, peer, &login);
            part(hall.rt, stream, gone)
        }
        Received::Gone(gone) => part(hall.rt, stream, gone),
    }
}

/// Tells what became of a connection, of this kind, in these words; where `is_owed` is not so, only where a log is asked for.
fn tell_of<R: Wait + Clock>(
    rt: &R,
    alloc: Global,
    control: &ServerControl,
    peer: &Peer,
    kind: &str,
    words: &str,
    is_owed: bool,
) {
    if !is_owed && control.log.form().is_none() {
        return;
    }
    match peer.words(alloc, kind, words) {
        Ok(words) => control.tell(rt, alloc, kind, words.as_str()),
        Err(_) => control.log.leave_out(rt),
    }
}

/// Why somebody is put out.
fn words_of_exclusion(why: Exclusion) -> &'static str {
    match why {
        Exclusion::Silent => "1000 requests in a row were denied in silence",
        Exclusion::Kept => "the day's last records are for officers and readers",
    }
}

/// Tells that a connection was cut off, and why.
fn tell_cut<R: Wait + Clock>(
    rt: &R,
    alloc: Global,
    control: &ServerControl,
    peer: &Peer,
    cut: Cut,
) {
    match cut {
        Cut::Broken(fault) => tell_of(
            rt,
            alloc,
            control,
            peer,
            "no packets",
            words_of(fault),
            true,
        ),
        Cut::Excluded(why) => {
            let words = words_of_exclusion(why);
            tell_of(rt, alloc, control, peer, "put out", words, true);
        }
    }
}

/// Tells that a connection's user has no line, and why.
fn tell_no_line<R: Wait + Clock>(
    rt: &R,
    alloc: Global,
    control: &ServerControl,
    peer: &Peer,
    why: NoLine,
) {
    let words = match why.why() {
        LineFault::Kept => "the day's last lines and records are for officers and readers",
        LineFault::NoOfficer => "the server takes officers alone",
        LineFault::Unissued(PassFault::NoLines) => "the day has none left",
        LineFault::Unissued(PassFault::OutOfMemory) => "there is no memory for one",
    };
    tell_of(rt, alloc, control, peer, "no line", words, true);
}

/// Tells on which line of the day a connection's user is, where a log is asked for.
fn tell_line<R: Wait + Clock>(
    rt: &R,
    alloc: Global,
    control: &ServerControl,
    peer: &Peer,
    line: u16,
) {
    if control.log.form().is_none() {
        return;
    }
    match format!(in alloc; "{line}") {
        Ok(words) => tell_of(rt, alloc, control, peer, "line", words.as_str(), false),
        Err(_) => control.log.leave_out(rt),
    }
}

/// Tells why a connection has ended, where that is told.
pub(crate) fn tell_gone<R: Wait + Clock>(
    rt: &R,
    alloc: Global,
    control: &ServerControl,
    peer: &Peer,
    gone: Gone,
) {
    match gone {
        Gone::Cut(cut) => tell_cut(rt, alloc, control, peer, cut),
        Gone::NoLine(why) => tell_no_line(rt, alloc, control, peer, why),
        Gone::Spared => control.tally.note(Mishap::Spared, 1),
        Gone::Denied => tell_of(
            rt,
            alloc,
            control,
            peer,
            "ended",
            "no user's password",
            false,
        ),
        Gone::Quietly => {}
    }
}
