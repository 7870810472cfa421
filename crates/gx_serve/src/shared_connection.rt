//! A connection's lock.

ghost use Rattle.std.specs.Prelude.{◌≡◌};
ghost use Rattle.gx_serve.specs.{Breaks.break_of, Takings.IsTakenIn, Marks.mark_sent, Speech.IsDue, Timings.AreTimes};

use crate::state::outgoing::{Answered, Bookmark, Fetched, Finished, NextWrite};
use crate::state::taking::Taken;
use crate::state::{Break, BrokenOff, ConnectionState, ReaderEnded};
use gx_control::{AnswersNoted, ShutdownFlag, WriterWakeup};
use gx_door::{Caller, Dial, Door};
use gx_soup::ClientPacket;
use std::sync::{Condvar, Mutex, MutexGuard, Wait};
use std::thread;
use std::time::{Clock, Duration};

/// So often a reader makes a few matching steps at most behind a few packets.
const ROUNDS: u64 = 8;

/// After so many milliseconds the writer of a connection whose login was not answered looks at the time.
const LOGIN_POLL_MILLIS: u64 = 100;

/// Before a session ends for silence its reader has so many milliseconds to take what lies unread.
const SILENCE_DOUBT_MILLIS: u64 = 200;

/// A writer rests at least so many nanoseconds, unless he is woken.
const SHORTEST_WAIT_NANOS: u64 = 1_000_000;

/// So many milliseconds lie between two times that a session's end looks whether the writer has looked for reports.
const DRAIN_POLL_MILLIS: u64 = 1;

/// So many times it does at most.
const MOST_DRAIN_POLLS: u64 = 5_000;

/// So many milliseconds a connection whose session is over is read to its end, before it is cut.
const CLOSE_LINGER_MILLIS: u64 = 1_000;

/// Whether a client asks for the end of his session.
pub(crate) fn is_farewell(packet: &ClientPacket) -> bool {
    match packet {
        ClientPacket::Logout => true,
        ClientPacket::Login(_)
        | ClientPacket::Data(_)
        | ClientPacket::Heartbeat
        | ClientPacket::Debug => false,
    }
}

/// Why a connection ends, as a log tells it.
#[derive(Clone, Copy, PartialEq, Eq)]
pub enum Farewell {
    /// Its user has asked for it.
    LoggedOut,
    /// Its input has ended, or failed.
    Left,
    /// Its bytes are no packets, or can't be written.
    Broken,
    /// Memory was refused, or the day is full.
    Refused,
    /// The server ends.
    ServerEnds,
    /// Its user was silent for too long, was logged in nowhere, or was told that the day has ended.
    Over,
}

impl Farewell {
    /// What is told of it.
    pub fn words(self) -> &'static str {
        match self {
            Farewell::LoggedOut => "logged out",
            Farewell::Left => "the client has closed it, or the line broke",
            Farewell::Broken => "what came were no packets, or nothing could be written",
            Farewell::Refused => "memory was refused, or the day is full",
            Farewell::ServerEnds => "the server ends",
            Farewell::Over => "the session was over: silence, the end of the day, or no login",
        }
    }
}

impl Break {
    /// Why a connection ends that is broken off for this.
    fn farewell(self) -> Farewell {
        match self {
            Break::Refused(_) => Farewell::Refused,
            Break::Fault => Farewell::Broken,
        }
    }
}

/// What the two threads of a connection share.
#[derive(Drop)]
pub struct SharedConnection<T: Drop> {
    state: Mutex<ConnectionState<T>>,
    /// Why it ends: what was known of that first.
    farewell: Mutex<Option<Farewell>>,
    /// Wakes who waits for the reader's end.
    news: Condvar,
}

impl<T: Drop> SharedConnection<T> {
    /// A new session, with the pass that its steps are made with, of somebody who is this.
    pub fn new<R: Dial>(rt: &R, pass: T, caller: Caller) -> SharedConnection<T> {
        SharedConnection {
            state: Mutex::new(ConnectionState::new(rt, pass, caller, rt.moment())),
            farewell: Mutex::new(None),
            news: Condvar::new(),
        }
    }

    /// Notes why the connection ends, unless that is known.
    fn note<R: Wait>(&self, rt: &R, farewell: Farewell) {
        let mut known = self.farewell.lock(rt);
        if known.is_none() {
            *known = Some(farewell);
        }
    }

    /// Why the connection ends, as far as that is known.
    pub fn farewell<R: Wait>(&self, rt: &R) -> Farewell {
        self.farewell.lock(rt).unwrap_or(Farewell::Over)
    }

    /// Waits until the writer has looked for reports that this connection's own steps made, or a while has passed:
    /// once a user is logged out he is told nothing more.
    fn await_look<R: Wait + Clock>(&self, rt: &R) {
        let mut state = self.state.lock(rt);
        for _ in 0..MOST_DRAIN_POLLS {
            if !state.has_unsent_reports() {
                break;
            }
            state = self
                .news
                .wait_timeout(rt, state, Duration::from_millis(DRAIN_POLL_MILLIS))
                .0;
        }
    }

    /// Takes a packet, unless its user is put out; a logout only once the user was told of his steps.
    pub fn take<'a, D: Door<Pass = T>, R: Wait + Clock + Dial>(
        &self,
        rt: &R,
        door: &D,
        packet: &'a ClientPacket,
    ) -> Taken<'a>
        ensures { IsTakenIn packet.now result }
    {
        if is_farewell(packet) {
            self.await_look(rt);
            self.note(rt, Farewell::LoggedOut);
        }
        self.state.lock(rt).take_in(rt, door, packet, rt.moment())
    }

    /// Makes the matching steps that those of the last packet left, until no order waits or so many were made. Answers
    /// whether none waited then.
    pub fn settle<D: Door<Pass = T>, R: Wait + Clock + Dial>(&self, rt: &R, door: &D) -> bool {
        for _ in 0..ROUNDS {
            if self.state.lock(rt).settle(rt, door, rt.moment()) {
                return true;
            }
        }
        false
    }

    /// Tells the session of what breaks it off.
    pub fn break_off<D: Door<Pass = T>, R: Wait + Clock + Dial>(
        &self,
        rt: &R,
        door: &D,
        cause: Break,
    ) -> BrokenOff
        ensures { result ≡ break_of cause }
    {
        self.note(rt, cause.farewell());
        self.state.lock(rt).break_off(rt, door, cause, rt.moment())
    }

    /// These reports were sent, and it was counted how long they took: tells the session so, and goes on behind them. Answers
    /// so many nanoseconds that the writer may rest then, unless he is woken; 0 where there may be more to send.
    pub fn sent<D: Door<Pass = T>, R: Wait + Clock + Dial>(
        &self,
        rt: &R,
        door: &D,
        _noted: AnswersNoted,
        fetched: Fetched,
        bookmark: &mut Bookmark,
    ) -> u64
        requires noted { AreTimes R.shown bookmark.old.login fetched.pulled.reports _noted }
        ensures { bookmark.new ≡ mark_sent bookmark.old fetched }
    {
        let is_all = fetched.is_all();
        let mut state = self.state.lock(rt);
        let moment = rt.moment();
        state.sent(rt, door, fetched, bookmark, moment);
        if is_all { state.rest(moment) } else { 0 }
    }

    /// The reader has ended: its input has no more. The user is told of his steps before.
    pub fn end<D: Door<Pass = T>, R: Wait + Clock + Dial>(&self, rt: &R, door: &D) -> ReaderEnded {
        self.await_look(rt);
        self.note(rt, Farewell::Left);
        let ended = self.state.lock(rt).end(rt, door, rt.moment());
        self.news.notify_one();
        ended
    }

    /// What the writer does before the login is answered: the answer that it sends, or that the session is over; `None` for
    /// nothing for now. The session is told of the server's end, where that was asked for.
    fn greet<D: Door<Pass = T>, R: Wait + Clock + Dial>(
        &self,
        rt: &R,
        door: &D,
        shutdown: &ShutdownFlag,
    ) -> Option<Result<Answered, Finished>> {
        let mut state = self.state.lock(rt);
        let moment = rt.moment();
        let heeded = state.heed(rt, door, shutdown.is_requested(), moment);
        state.greet(rt, door, heeded, moment)
    }

    /// Waits until the login is answered, for the answer, woken by this; `Err` once the session is over, which it is soon after the
    /// server's end was asked for.
    pub fn await_answer<D: Door<Pass = T>, R: Wait + Clock + Dial>(
        &self,
        rt: &R,
        door: &D,
        shutdown: &ShutdownFlag,
        wakeup: &WriterWakeup,
    ) -> Result<Answered, Finished> {
        for _ in rt.forever() {
            if let Some(found) = self.greet(rt, door, shutdown) {
                return found;
            }
            wakeup.wait(rt, Duration::from_millis(LOGIN_POLL_MILLIS));
        }
        unreachable!()
    }

    /// Notes that the session is over, if that is what is due.
    fn note_over<R: Wait>(&self, rt: &R, shutdown: &ShutdownFlag, due: &NextWrite) {
        if !matches!(due, NextWrite::Over(_)) {
            return;
        }
        if shutdown.is_requested().is_yes() {
            self.note(rt, Farewell::ServerEnds);
        } else {
            self.note(rt, Farewell::Over);
        }
    }

    /// What the writer has to do for the bookmark's user, and so many nanoseconds he may rest where that is nothing. The
    /// session is told of the server's end, where that was asked for. Where the session may have packets
    /// unread, its reader is given time to take them.
    #[tactic(auto, using(crate::proofs::Session_call::sought_is_due))]
    fn look<D: Door<Pass = T>, R: Wait + Clock + Dial>(
        &self,
        rt: &R,
        door: &D,
        shutdown: &ShutdownFlag,
        bookmark: &Bookmark,
    ) -> (NextWrite, u64)
        ensures { IsDue D.policy bookmark.now.user bookmark.now.next result.0 }
    {
        let mut state = self.state.lock(rt);
        let moment = rt.moment();
        if state.is_in_doubt(moment) {
            MutexGuard::unlock(state);
            thread::sleep(rt, Duration::from_millis(SILENCE_DOUBT_MILLIS));
            return (NextWrite::Nothing, 0);
        }
        let heeded = state.heed(rt, door, shutdown.is_requested(), moment);
        let due = state.due(rt, door, heeded, bookmark, moment);
        let rest = state.rest(moment);
        MutexGuard::unlock(state);
        self.note_over(rt, shutdown, &due);
        (due, rest)
    }

    /// Waits, woken by this, until the writer has something to do for the bookmark's user, or the session is over, which it is soon
    /// after the server's end was asked for.
    pub fn await_next_write<D: Door<Pass = T>, R: Wait + Clock + Dial>(
        &self,
        rt: &R,
        door: &D,
        shutdown: &ShutdownFlag,
        wakeup: &WriterWakeup,
        bookmark: &Bookmark,
    ) -> NextWrite
        ensures { IsDue D.policy bookmark.now.user bookmark.now.next result }
    {
        for _ in rt.forever() {
            match self.look(rt, door, shutdown, bookmark) {
                (NextWrite::Nothing, rest) => {
                    wakeup.wait(rt, Duration::from_nanos(rest.max(SHORTEST_WAIT_NANOS)));
                }
                (due, _rest) => return due,
            }
        }
        unreachable!()
    }

    /// Waits until the reader has ended, or a while has passed.
    pub fn linger<R: Wait + Clock>(&self, rt: &R) {
        let most = Duration::from_millis(CLOSE_LINGER_MILLIS);
        let _ = self.news.wait_timeout_while(
            rt,
            self.state.lock(rt),
            most,
            |state| !state.is_reader_done(),
        );
    }
}
