//! A connection: its two threads.

use crate::announcing::Announces;
use crate::reading::{Cut, Heard, read_on};
use crate::shared_connection::SharedConnection;
use crate::state::{Break, BrokenOff};
use crate::writing::write_on;
use gx_control::{AnswerTimes, ShutdownFlag, Wakeup, Wakeups, WriterWakeup};
use gx_devices::CallCounter;
use gx_door::{Dial, Door};
use gx_reception::Opening;
use std::alloc::Global;
use std::io::{Read, Write};
use std::net::{Shutdown, TcpStream};
use std::sync::Wait;
use std::thread;
use std::thread::Threads;
use std::time::Clock;

/// A line that can be hung up, so that a read of it that waits ends.
pub trait HangUp {
    /// Nothing more is written.
    fn finish(&self);

    /// Nothing more is read or written.
    fn hang_up(&self);
}

impl HangUp for TcpStream {
    fn finish(&self) {
        let _ = self.shutdown(Shutdown::Write);
    }

    fn hang_up(&self) {
        let _ = self.shutdown(Shutdown::Both);
    }
}

/// That this line was hung up. It is made by hanging up alone.
#[derive(Drop)]
pub struct HungUp<'x, H> {
    _line: &'x H,
}

impl<'x, H: HangUp> HungUp<'x, H> {
    /// Hangs up.
    fn new(line: &'x H) -> HungUp<'x, H> {
        line.hang_up();
        HungUp { _line: line }
    }
}

/// Writes until the session is over, and hangs up.
fn run_writer<'x, D: Door, O: Write + Drop, H: HangUp, R: Wait + Clock + Dial>(
    rt: &R,
    alloc: Global,
    door: &D,
    shutdown: &ShutdownFlag,
    wakeup: &WriterWakeup,
    times: &AnswerTimes,
    shared: &SharedConnection<D::Pass>,
    writer: O,
    line: &'x H,
) -> HungUp<'x, H> {
    let mut writer = CallCounter::new(writer);
    let finished = write_on(
        rt,
        alloc,
        door,
        shutdown,
        wakeup,
        times,
        shared,
        &mut writer,
    );
    if finished.is_some() {
        line.finish();
        shared.linger(rt);
    }
    HungUp::new(line)
}

/// What a connection's reader has come to.
#[derive(Drop)]
pub enum Listening {
    /// It has read to the end.
    Heard(Heard),
    /// There was no thread for it, and the session was told so.
    Unheard(BrokenOff),
}

impl Listening {
    /// Why the session was cut off by what came of its peer, if it was.
    pub fn cut(&self) -> Option<Cut> {
        match self {
            Listening::Heard(heard) => heard.cut(),
            Listening::Unheard(_) => None,
        }
    }
}

/// Reads to the end.
fn run_reader<D: Door, I: Read + Drop, R: Wait + Clock + Dial + Announces>(
    rt: &R,
    door: &D,
    wakeups: Wakeups<'_>,
    shared: &SharedConnection<D::Pass>,
    opening: Opening,
    reader: CallCounter<I>,
) -> Heard {
    let mut reader = reader;
    read_on(rt, door, &wakeups, shared, opening, &mut reader)
}

/// Runs the reader and the writer of a connection that begins with a login, each in a thread of its own, until both have
/// ended and the line was hung up. The writer is woken, and counts how long its user's reports took. What commands
/// ended the runtime announces.
pub fn run_connection<
    'x,
    T: Drop + Send,
    D: Door<Pass = T> + Sync,
    I: Read + Drop + Send,
    O: Write + Drop,
    H: HangUp + Sync,
    R: Threads + Wait + Clock + Dial + Announces + Sync,
>(
    rt: &'x R,
    alloc: Global,
    door: &'x D,
    matcher: &'x Wakeup,
    wakeup: &'x WriterWakeup,
    shutdown: &'x ShutdownFlag,
    times: &'x AnswerTimes,
    shared: &'x SharedConnection<T>,
    opening: Opening,
    reader: CallCounter<I>,
    writer: O,
    line: &'x H,
) -> (HungUp<'x, H>, Listening) {
    let wakeups = Wakeups::new(wakeup, matcher);
    thread::scope(thread::scope_env(), rt, |scope| {
        let Ok(listening) = (&*scope).spawn(move || run_reader(
            rt, door, wakeups, shared, opening, reader,
        )) else {
            let told = shared.break_off(rt, door, Break::Fault);
            return (HungUp::new(line), Listening::Unheard(told));
        };
        let hung_up = run_writer(
            rt, alloc, door, shutdown, wakeup, times, shared, writer, line,
        );
        (hung_up, Listening::Heard(listening.join(rt)))
    })
}
