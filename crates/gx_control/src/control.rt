//! What the threads of a server share beside its gate.

use crate::answer_times::AnswerTimes;
use crate::attempts::Attempts;
use crate::begun::Begun;
use crate::connection_slots::ConnectionSlots;
use crate::journal_tally::JournalTally;
use crate::newcomers::Newcomers;
use crate::shutdown::ShutdownFlag;
use crate::tally::{MISHAPS, Mishap, Tally};
use crate::wakeup::Wakeup;
use crate::writer_wakeup::WriterWakeups;
use gx_clock::DayClock;
use gx_log::Log;
use std::alloc::Global;
use std::sync::{Arc, Wait};
use std::time::Clock;

/// What the threads of a server share beside its gate.
#[derive(Drop)]
pub struct ServerControl {
    /// Shows the moments of the day.
    pub clock: DayClock,
    /// Wakes the matcher.
    pub matcher: Wakeup,
    /// Wakes who keeps what is done.
    pub keeper: Wakeup,
    /// Wake the writers of those who are logged in.
    pub writers: WriterWakeups,
    /// One is taken for each connection that is served.
    pub slots: ConnectionSlots,
    /// Who is connected and has not logged in.
    pub newcomers: Newcomers,
    /// How often wrong passwords were given.
    pub attempts: Attempts,
    /// What went wrong at the door.
    pub tally: Tally,
    /// How long it takes until users are told of steps.
    pub answers: AnswerTimes,
    /// How much was written to the journal.
    pub journal: JournalTally,
    /// Whether the server has begun to take connections.
    pub begun: Begun,
    /// Whether the server is to end.
    pub shutdown: ShutdownFlag,
    /// What is told on standard error.
    pub log: Arc<Log, Global>,
}

impl ServerControl {
    /// What they share in one run of a server by this clock, with slots for so many connections at once, each of which has so
    /// many seconds for its login. What is told goes to this log.
    pub fn new(
        alloc: Global,
        clock: DayClock,
        at_once: u16,
        login_within: u64,
        log: Arc<Log, Global>,
    ) -> ServerControl {
        ServerControl {
            clock,
            matcher: Wakeup::new(),
            keeper: Wakeup::new(),
            writers: WriterWakeups::new(alloc),
            slots: ConnectionSlots::new(at_once),
            newcomers: Newcomers::new(alloc, login_within),
            attempts: Attempts::new(alloc),
            tally: Tally::new(),
            answers: AnswerTimes::new(),
            journal: JournalTally::new(),
            begun: Begun::new(),
            shutdown: ShutdownFlag::new(),
            log,
        }
    }

    /// Asks the server to end: it takes no connection any more, and those that it serves end.
    pub fn end(&self) {
        self.shutdown.request();
    }

    /// Tells what happened, in these words.
    pub fn tell<R: Wait + Clock>(&self, rt: &R, alloc: Global, kind: &str, words: &str) {
        self.log
            .tell_event(rt, alloc, self.clock.now(rt), kind, words);
    }

    /// Tells what happened where a log is asked for, and nothing without one.
    pub fn note<R: Wait + Clock>(&self, rt: &R, alloc: Global, kind: &str, words: &str) {
        if self.log.form().is_some() {
            self.tell(rt, alloc, kind, words);
        }
    }

    /// Tells how often this went wrong since it was told last; nothing where it did not.
    fn tell_mishap<R: Wait + Clock>(&self, rt: &R, alloc: Global, mishap: Mishap) {
        let times = self.tally.take(mishap);
        if times == 0 {
            return;
        }
        let words = mishap.words();
        match format!(in alloc; "gate: {times} {words}") {
            Ok(words) => self.tell(rt, alloc, mishap.kind(), words.as_str()),
            Err(_) => self.log.leave_out(rt),
        }
    }

    /// Tells how often each thing went wrong at the door since it was told last, a line each.
    pub fn tell_mishaps<R: Wait + Clock>(&self, rt: &R, alloc: Global) {
        for mishap in MISHAPS {
            self.tell_mishap(rt, alloc, mishap);
        }
    }
}
