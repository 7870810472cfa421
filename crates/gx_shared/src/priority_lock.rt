//! A lock that those with priority get before all others.

use std::hint::spin_loop;
use std::sync::atomic::{AtomicU64, Ordering};
use std::sync::{Mutex, MutexGuard, Wait};

/// So many times a thread looks whether the lock is free, before it sleeps until it is.
const LOOKS: u32 = 30;

/// So many times one with priority looks.
const URGENT_LOOKS: u32 = 1_000;

/// So many times a processor pauses between two such looks.
const PAUSES: u32 = 10;

/// Who gets a lock first, of those who wait for it.
#[derive(Clone, Copy, PartialEq, Eq)]
pub enum Priority {
    /// Nobody goes before him but another such.
    Urgent,
    /// He comes behind all who are urgent.
    Ordinary,
}

/// Lets a moment pass between two looks.
fn pause() {
    for _ in 0..PAUSES {
        spin_loop();
    }
}

/// A lock over a value, which is held for a few microseconds at a time.
///
/// Where it is free, whoever asks has it at once. Else he looks again, for as long as a few others hold it; who has no priority
/// sleeps then until it is let go, in the order of the system's queue, and does not take it at any look while somebody with
/// priority waits.
pub(crate) struct PriorityLock<T> {
    value: Mutex<T>,
    /// How many with priority wait.
    urgent: AtomicU64,
}

/// That somebody with priority waits, for as long as it is held.
struct Notice<'x> {
    urgent: &'x AtomicU64,
}

impl Drop for Notice<'_> {
    fn drop(self) {
        let Notice { urgent } = self;
        urgent.fetch_sub(1, Ordering::SeqCst);
    }
}

impl<T> PriorityLock<T> {
    /// A lock that nobody holds.
    pub(crate) fn new(value: T) -> PriorityLock<T> {
        PriorityLock {
            value: Mutex::new(value),
            urgent: AtomicU64::new(0),
        }
    }

    /// The value, which no thread shares any more.
    pub(crate) fn into_inner(self) -> T {
        let PriorityLock { value, urgent: _ } = self;
        value.into_inner()
    }

    /// Has it known that somebody with priority waits.
    fn notice(&self) -> Notice<'_> {
        self.urgent.fetch_add(1, Ordering::SeqCst);
        Notice {
            urgent: &self.urgent,
        }
    }

    /// The value, if the lock is free and nobody with priority waits.
    fn try_ordinary(&self) -> Option<MutexGuard<'_, T>> {
        if self.urgent.load(Ordering::SeqCst) > 0 {
            return None;
        }
        self.value.try_lock()
    }

    /// The value, if nobody with priority waits and the lock is free at one of some looks.
    fn look(&self) -> Option<MutexGuard<'_, T>> {
        for _ in 0..LOOKS {
            if let Some(value) = self.try_ordinary() {
                return Some(value);
            }
            pause();
        }
        None
    }

    /// The value, for somebody with priority.
    fn lock_urgent<R: Wait>(&self, rt: &R) -> MutexGuard<'_, T> {
        let _notice = self.notice();
        for _ in 0..URGENT_LOOKS {
            if let Some(value) = self.value.try_lock() {
                return value;
            }
            pause();
        }
        self.value.lock(rt)
    }

    /// The value, for somebody without priority.
    fn lock_ordinary<R: Wait>(&self, rt: &R) -> MutexGuard<'_, T> {
        match self.look() {
            Some(value) => value,
            None => self.value.lock(rt),
        }
    }

    /// The value, once nobody else has it and it is the caller's turn.
    pub(crate) fn lock<R: Wait>(&self, rt: &R, priority: Priority) -> MutexGuard<'_, T> {
        match priority {
            Priority::Urgent => self.lock_urgent(rt),
            Priority::Ordinary => self.lock_ordinary(rt),
        }
    }
}
