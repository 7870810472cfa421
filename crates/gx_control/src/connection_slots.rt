//! How many connections are served at once.

ghost use Rattle.std.specs.Prelude.{◌≡◌, ◌≤◌, ◌+◌, ◌-◌, IsFalse, IsTrue};

use std::sync::{Condvar, Mutex, Wait};
use std::time::{Clock, Duration};

/// How many slots are taken, never more than there are.
#[derive(Drop)]
struct Occupied {
    most: u16,
    count: u16,
    ghost few: { count ≤ most },
}

impl Occupied {
    /// Takes a slot, if one is free. Answers whether it did.
    fn acquire(&mut self) -> bool
        ensures taken { IsTrue result → self.new.count ≡ self.old.count + 1 }
        ensures full { IsFalse result → self.old.count ≡ self.old.most }
        ensures kept { IsFalse result → self.new.count ≡ self.old.count }
        ensures most { self.new.most ≡ self.old.most }
    {
        if self.count < self.most {
            self.count += 1;
            return true;
        }
        false
    }

    /// Gives a slot back.
    fn release(&mut self)
        ensures given { self.new.count ≡ self.old.count - 1 }
        ensures most { self.new.most ≡ self.old.most }
    {
        self.count = self.count.saturating_sub(1);
    }
}

/// Slots for connections: each takes one for as long as it is served.
#[derive(Drop)]
pub struct ConnectionSlots {
    occupied: Mutex<Occupied>,
    news: Condvar,
}

impl ConnectionSlots {
    /// So many slots, all of them free.
    pub fn new(most: u16) -> ConnectionSlots {
        ConnectionSlots {
            occupied: Mutex::new(Occupied { most, count: 0 }),
            news: Condvar::new(),
        }
    }

    /// Takes a slot, if one is free.
    pub fn acquire<'x, R: Wait>(&'x self, rt: &'x R) -> Option<ConnectionSlot<'x, R>> {
        if self.occupied.lock(rt).acquire() {
            Some(ConnectionSlot { rt, slots: self })
        } else {
            None
        }
    }

    /// How many slots are taken.
    pub fn count<R: Wait>(&self, rt: &R) -> u16 {
        self.occupied.lock(rt).count
    }

    /// Waits until a slot is given back, or so long.
    pub fn await_one<R: Wait + Clock>(&self, rt: &R, patience: Duration) {
        let _ = self.news.wait_timeout(rt, self.occupied.lock(rt), patience);
    }

    fn release<R: Wait>(&self, rt: &R) {
        self.occupied.lock(rt).release();
        self.news.notify_one();
    }
}

/// A slot that was taken. It is given back where it is let go.
pub struct ConnectionSlot<'x, R: Wait> {
    rt: &'x R,
    slots: &'x ConnectionSlots,
}

impl<R: Wait> Drop for ConnectionSlot<'_, R> {
    fn drop(self) {
        let ConnectionSlot { rt, slots } = self;
        slots.release(rt);
    }
}
