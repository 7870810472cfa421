//! What wakes the matcher.

ghost use Rattle.std.specs.Prelude.{◌≡◌, ◌+◌, ◌-◌, ◌<◌, ◌^◌};

use std::marker::Model;
use std::sync::atomic::{AtomicBool, Ordering};
use std::sync::{Condvar, Mutex, MutexGuard, Wait};
use std::time::{Clock, Duration};

/// After so many milliseconds the matcher looks for itself: a refused matching step is tried again
/// then.
const LOOK_AGAIN_MILLIS: u64 = 100;

/// So many milliseconds it waits at most where it has something to do soon.
const LOOK_SOON_MILLIS: u64 = 1;

/// Where the matcher is behind more readers than these, no reader goes on.
const MOST_STEPS_BEHIND: u64 = 256;

/// So many milliseconds a reader waits at most for the matcher.
const LONGEST_WAIT_MILLIS: u64 = 1_000;

#[derive(Drop)]
struct Backlog {
    closed: bool,
    /// So many steps were made behind which an order may wait, and the matcher has not looked since.
    behind: u64,
}

impl Backlog {
    /// One more step, behind which an order may wait.
    fn note(&mut self)
        ensures behind { self.old.behind < 2 ^ 64 - 1 → self.new.behind ≡ self.old.behind + 1 }
        ensures closed { self.new.closed ≡ self.old.closed }
    {
        self.behind = self.behind.saturating_add(1);
    }

    /// The matcher has looked behind so many of these steps.
    fn look(&mut self, behind: u64)
        ensures behind { self.new.behind ≡ self.old.behind - behind }
        ensures closed { self.new.closed ≡ self.old.closed }
    {
        self.behind = self.behind.saturating_sub(behind);
    }
}

/// That a thread was notified. A [`Wakeup`] alone makes one.
#[derive(Drop)]
pub struct Notified {
    _notified: (),
}

/// What woke the thread that waits.
#[derive(Clone, Copy)]
pub struct Woken {
    /// It was notified.
    pub notified: bool,
    /// It was closed.
    pub closed: bool,
    /// So many steps were made behind which an order may wait.
    pub behind: u64,
}

/// Notified by those who made a step, after which an order may wait; closed once there are no more.
#[derive(Drop)]
pub struct Wakeup {
    notified: AtomicBool,
    backlog: Mutex<Backlog>,
    news: Condvar,
    room: Condvar,
}

// Clauses see nothing of it, which keeps the proofs of threads small.
impl Model for Wakeup {
    ghost use Rattle.std.specs.Prelude.{⊤};

    ghost Value = { ⊤ };

    ghost view = { λ _. tt };
}

impl Wakeup {
    /// Nobody has notified yet.
    pub fn new() -> Wakeup {
        Wakeup {
            notified: AtomicBool::new(false),
            backlog: Mutex::new(Backlog {
                closed: false,
                behind: 0,
            }),
            news: Condvar::new(),
            room: Condvar::new(),
        }
    }

    /// Wakes the thread that waits.
    pub fn notify<R: Wait>(&self, rt: &R) -> Notified {
        if !self.notified.swap(true, Ordering::SeqCst) {
            // who has not seen it notified sleeps by now
            MutexGuard::unlock(self.backlog.lock(rt));
            self.news.notify_one();
        }
        Notified { _notified: () }
    }

    /// The same behind a step behind which an order may wait still. Waits where the matcher is far behind.
    pub fn notify_behind<R: Wait + Clock>(&self, rt: &R) -> Notified {
        self.backlog.lock(rt).note();
        let notified = self.notify(rt);
        let longest = Duration::from_millis(LONGEST_WAIT_MILLIS);
        let _ = self.room.wait_timeout_while(
            rt,
            self.backlog.lock(rt),
            longest,
            |r| r.behind > MOST_STEPS_BEHIND && !r.closed,
        );
        notified
    }

    /// The matcher has looked behind so many of these steps.
    pub fn settled<R: Wait>(&self, rt: &R, behind: u64) {
        self.backlog.lock(rt).look(behind);
        self.room.notify_all();
    }

    /// Opens it: it was not closed.
    pub fn open<R: Wait>(&self, rt: &R) {
        self.backlog.lock(rt).closed = false;
    }

    /// Closes it: who waits is told so from now on.
    pub fn close<R: Wait>(&self, rt: &R) {
        self.backlog.lock(rt).closed = true;
        self.news.notify_one();
        self.room.notify_all();
    }

    /// Waits until it is notified or closed, or for a while, which is short where there is something to do soon. Answers what
    /// has happened.
    pub fn wait<R: Wait + Clock>(&self, rt: &R, soon: bool) -> Woken {
        let notified = &self.notified;
        let patience = Duration::from_millis(if soon {
            LOOK_SOON_MILLIS
        } else {
            LOOK_AGAIN_MILLIS
        });
        let (backlog, _timed) = self
            .news
            .wait_timeout_while(rt, self.backlog.lock(rt), patience, |r| {
                !notified.load(Ordering::SeqCst) && !r.closed
            });
        Woken {
            notified: self.notified.swap(false, Ordering::SeqCst),
            closed: backlog.closed,
            behind: backlog.behind,
        }
    }
}
