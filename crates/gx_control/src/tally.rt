//! What went wrong at the door, as it is counted and told.

use std::sync::atomic::{AtomicU64, Ordering};

/// What goes wrong at the door.
#[derive(Clone, Copy)]
pub enum Mishap {
    /// Somebody who had not logged in was hung up on, since his place was wanted.
    Crowded,
    /// Somebody was hung up on, since he had not logged in in time.
    Late,
    /// No connection could be taken for want of descriptors or memory.
    Wanting,
    /// There was no thread or no memory for a connection.
    Unserved,
    /// The login of a stranger was not put on record.
    Spared,
}

/// All of them.
pub(crate) const MISHAPS: [Mishap; 5] = [
    Mishap::Crowded,
    Mishap::Late,
    Mishap::Wanting,
    Mishap::Unserved,
    Mishap::Spared,
];

impl Mishap {
    /// What kind of event it is.
    pub(crate) fn kind(self) -> &'static str {
        match self {
            Mishap::Crowded => "crowded",
            Mishap::Late => "late",
            Mishap::Wanting => "wanting",
            Mishap::Unserved => "unserved",
            Mishap::Spared => "spared",
        }
    }

    /// What is told of so many.
    pub(crate) fn words(self) -> &'static str {
        match self {
            Mishap::Crowded =>
                "connections without a login were hung up on: their places were wanted",
            Mishap::Late => "connections were hung up on: they had not logged in in time",
            Mishap::Wanting =>
                "times no connection could be taken: descriptors or memory are wanting",
            Mishap::Unserved =>
                "connections were closed: there was no thread or no memory for them",
            Mishap::Spared =>
                "wrong logins were not put on record: the rest of the day is for others",
        }
    }
}

/// How often each went wrong since it was told.
#[derive(Drop)]
pub struct Tally {
    crowded: AtomicU64,
    late: AtomicU64,
    wanting: AtomicU64,
    unserved: AtomicU64,
    spared: AtomicU64,
}

impl Tally {
    /// Nothing went wrong.
    pub fn new() -> Tally {
        Tally {
            crowded: AtomicU64::new(0),
            late: AtomicU64::new(0),
            wanting: AtomicU64::new(0),
            unserved: AtomicU64::new(0),
            spared: AtomicU64::new(0),
        }
    }

    fn count(&self, mishap: Mishap) -> &AtomicU64 {
        match mishap {
            Mishap::Crowded => &self.crowded,
            Mishap::Late => &self.late,
            Mishap::Wanting => &self.wanting,
            Mishap::Unserved => &self.unserved,
            Mishap::Spared => &self.spared,
        }
    }

    /// It went wrong so often more.
    pub fn note(&self, mishap: Mishap, times: u64) {
        self.count(mishap).fetch_add(times, Ordering::SeqCst);
    }

    /// How often it went wrong since this was asked last.
    pub fn take(&self, mishap: Mishap) -> u64 {
        self.count(mishap).swap(0, Ordering::SeqCst)
    }
}
