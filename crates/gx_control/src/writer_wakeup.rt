//! What wakes the writers of connections, and whom a reader wakes.

ghost use Rattle.std.specs.Prelude.{◌≡◌, OnErr};

use crate::wakeup::{Notified, Wakeup};
use gx_units::OutOfMemory;
use std::alloc::Global;
use std::collections::BTreeMap;
use std::marker::Model;
use std::sync::atomic::{AtomicBool, AtomicU64, Ordering};
use std::sync::{Arc, Condvar, Mutex, MutexGuard, Wait};
use std::time::{Clock, Duration};

#[derive(Drop)]
struct Signal {
    notified: AtomicBool,
    /// How often its writer has waited.
    waits: AtomicU64,
    lock: Mutex<()>,
    news: Condvar,
    patience: u64,
}

/// Notified where the writer of a connection may have something to send. Its writer alone waits, and whoever has a clone
/// notifies. Contracts see nothing of it.
#[derive(Drop)]
pub struct WriterWakeup {
    signal: Arc<Signal, Global>,
}

impl Model for WriterWakeup {
    ghost use Rattle.std.specs.Prelude.{⊤};

    ghost Value = { ⊤ };

    ghost view = { λ _. tt };
}

impl WriterWakeup {
    /// Nobody has notified yet. Its writer waits at most for so many milliseconds.
    ///
    /// # Errors
    ///
    /// `OutOfMemory` where memory was refused.
    pub fn new(alloc: Global, patience: u64) -> Result<WriterWakeup, OutOfMemory> {
        let signal = Signal {
            notified: AtomicBool::new(false),
            waits: AtomicU64::new(0),
            lock: Mutex::new(()),
            news: Condvar::new(),
            patience,
        };
        Ok(WriterWakeup {
            signal: Arc::new(alloc, signal)?,
        })
    }

    /// The same once more.
    ///
    /// # Errors
    ///
    /// `OutOfMemory` where memory was refused.
    pub fn try_clone(&self) -> Result<WriterWakeup, OutOfMemory> {
        Ok(WriterWakeup {
            signal: Arc::try_clone(&self.signal)?,
        })
    }

    /// Wakes the writer.
    pub fn notify<R: Wait>(&self, rt: &R) {
        let signal = &self.signal;
        if signal.notified.swap(true, Ordering::SeqCst) {
            return;
        }
        // a writer who has not seen it notified sleeps by now
        MutexGuard::unlock(signal.lock.lock(rt));
        signal.news.notify_one();
    }

    /// How often its writer has waited.
    fn waits(&self) -> u64 {
        self.signal.waits.load(Ordering::SeqCst)
    }

    /// Waits until it is notified, or so long, but no longer than its writer does. It may end for no reason.
    pub fn wait<R: Wait + Clock>(&self, rt: &R, most: Duration) {
        let signal = &self.signal;
        let lock = signal.lock.lock(rt);
        if !signal.notified.load(Ordering::SeqCst) {
            let most = most.min(Duration::from_millis(signal.patience));
            let _ = signal.news.wait_timeout(rt, lock, most);
        }
        signal.notified.store(false, Ordering::SeqCst);
        signal.waits.fetch_add(1, Ordering::SeqCst);
    }
}

/// A writer's wakeup, how often he had waited when it was looked at last, and whether he may have looked too early then.
#[derive(Drop)]
struct Registered {
    wakeup: WriterWakeup,
    seen: AtomicU64,
    owed: AtomicBool,
}

impl Registered {
    /// Wakes the writer where something new was done, unless he has waited since that was looked at last: he is
    /// about to look by himself, or has looked just before. Answers whether he may have looked too early. Where nothing new
    /// was done, it wakes him who may have, unless he has waited since.
    fn notify_idle<R: Wait>(&self, rt: &R, is_new: bool) -> bool {
        let waits = self.wakeup.waits();
        let is_awake = self.seen.swap(waits, Ordering::SeqCst) != waits;
        let owed = self.owed.swap(is_new && is_awake, Ordering::SeqCst);
        if !is_awake && (is_new || owed) {
            self.wakeup.notify(rt);
        }
        is_new && is_awake
    }
}

/// The wakeups of the writers of those who are logged in, by the number of their connection.
#[derive(Drop)]
pub struct WriterWakeups {
    registry: Mutex<Registry>,
}

#[derive(Drop)]
struct Registry {
    by_number: BTreeMap<u64, Registered>,
}

impl Registry {
    /// One more.
    fn add(&mut self, number: u64, wakeup: WriterWakeup) -> Result<(), OutOfMemory>
        ensures err { OnErr result (self.new.by_number.entries ≡ self.old.by_number.entries) }
    {
        let registered = Registered {
            wakeup,
            seen: AtomicU64::new(0),
            owed: AtomicBool::new(false),
        };
        match self.by_number.insert(number, registered) {
            Ok(_) => Ok(()),
            Err(_) => Err(OutOfMemory),
        }
    }

    /// Wakes each for whom there may be something. Answers whether one may have looked too early.
    fn notify_idle<R: Wait>(&self, rt: &R, is_new: bool) -> bool {
        let mut too_early = false;
        for (_number, registered) in &self.by_number {
            if registered.notify_idle(rt, is_new) {
                too_early = true;
            }
        }
        too_early
    }
}

impl WriterWakeups {
    /// Nobody's.
    pub fn new(alloc: Global) -> WriterWakeups {
        WriterWakeups {
            registry: Mutex::new(Registry {
                by_number: BTreeMap::new(alloc),
            }),
        }
    }

    /// The writer of the connection of this number is woken by this from now on.
    ///
    /// # Errors
    ///
    /// `OutOfMemory` where memory was refused.
    pub fn register<R: Wait>(
        &self,
        rt: &R,
        number: u64,
        wakeup: WriterWakeup,
    ) -> Result<(), OutOfMemory> {
        self.registry.lock(rt).add(number, wakeup)
    }

    /// It is woken no more.
    pub fn remove<R: Wait>(&self, rt: &R, number: u64) {
        self.registry.lock(rt).by_number.remove(&number);
    }

    /// Wakes each where something new was done, but for those who have waited since the last time, and so look
    /// often. Answers whether one of these may have looked too early: he is to be asked after again soon, also where nothing
    /// new was done.
    pub fn notify_idle<R: Wait>(&self, rt: &R, is_new: bool) -> bool {
        self.registry.lock(rt).notify_idle(rt, is_new)
    }
}

/// Whom the reader of a connection wakes: its writer, and the matcher.
#[derive(Drop)]
pub struct Wakeups<'x> {
    writer: &'x WriterWakeup,
    matcher: &'x Wakeup,
}

impl<'x> Model for Wakeups<'x> {
    ghost use Rattle.std.specs.Prelude.{⊤};

    ghost Value = { ⊤ };

    ghost view = { λ _. tt };
}

impl<'x> Wakeups<'x> {
    /// Wakes these two.
    pub fn new(writer: &'x WriterWakeup, matcher: &'x Wakeup) -> Wakeups<'x> {
        Wakeups { writer, matcher }
    }

    /// Wakes the writer.
    pub fn wake_writer<R: Wait>(&self, rt: &R) {
        self.writer.notify(rt);
    }

    /// Wakes the matcher.
    pub fn wake_matcher<R: Wait>(&self, rt: &R) -> Notified {
        self.matcher.notify(rt)
    }

    /// Wakes the writer and the matcher behind steps. Where an order may wait, and the matcher is far behind, it waits.
    pub fn wake_both<R: Wait + Clock>(&self, rt: &R, may_wait: bool) -> Notified {
        self.writer.notify(rt);
        if may_wait {
            self.matcher.notify_behind(rt)
        } else {
            self.matcher.notify(rt)
        }
    }
}
