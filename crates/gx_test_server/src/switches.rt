//! What threads look at: flags that are raised once, and switches that make them wait.

use std::sync::Wait;
use std::sync::atomic::{AtomicBool, Ordering};
use std::thread;
use std::time::{Clock, Duration};

/// How many microseconds a thread that has to wait sleeps between two looks.
const POLL_INTERVAL_MICROS: u64 = 50;

/// A flag that is raised once and stays raised.
#[derive(Drop)]
pub(crate) struct OnceFlag {
    raised: AtomicBool,
}

impl OnceFlag {
    /// A flag that is not raised.
    pub(crate) fn new() -> OnceFlag {
        OnceFlag {
            raised: AtomicBool::new(false),
        }
    }

    /// Raises it.
    pub(crate) fn raise(&self) {
        self.raised.store(true, Ordering::SeqCst);
    }

    /// Whether it is raised.
    pub(crate) fn is_raised(&self) -> bool {
        self.raised.load(Ordering::SeqCst)
    }
}

/// A switch by which a peer makes the server's threads wait.
#[derive(Drop)]
pub(crate) struct PauseSwitch {
    paused: AtomicBool,
    /// Nobody waits any more.
    released: OnceFlag,
    /// Whether a thread waits.
    waiting: AtomicBool,
}

impl PauseSwitch {
    /// Nobody has to wait.
    pub(crate) fn new() -> PauseSwitch {
        PauseSwitch {
            paused: AtomicBool::new(false),
            released: OnceFlag::new(),
            waiting: AtomicBool::new(false),
        }
    }

    /// Makes threads wait from now on, or no longer.
    pub(crate) fn set(&self, paused: bool) {
        self.paused.store(paused, Ordering::SeqCst);
    }

    /// Nobody has to wait from now on, whatever is set.
    pub(crate) fn release(&self) {
        self.released.raise();
    }

    /// Waits while threads have to.
    pub(crate) fn pass<R: Wait + Clock>(&self, rt: &R) {
        for _ in rt.forever() {
            let paused = self.paused.load(Ordering::SeqCst) && !self.released.is_raised();
            self.waiting.store(paused, Ordering::SeqCst);
            if !paused {
                return;
            }
            thread::sleep(rt, Duration::from_micros(POLL_INTERVAL_MICROS));
        }
        unreachable!()
    }

    /// Whether a thread waits.
    pub(crate) fn has_waiter(&self) -> bool {
        self.waiting.load(Ordering::SeqCst) && self.paused.load(Ordering::SeqCst)
    }
}
