//! What is written to a journal, as it is counted.

ghost use Rattle.std.specs.{Prelude.{◌≡◌}, Io.{WritesAtMost, KnownBytes.{Keeps, WriteAppends}}};

use std::io;
use std::io::Write;
use std::marker::Model;
use std::sync::atomic::{AtomicU64, Ordering};

/// How much a run has written to its journal.
#[derive(Clone, Copy)]
pub struct JournalCounts {
    /// How many bytes its writes took.
    pub bytes: u64,
    /// How many writes took nothing or failed, or could not be forced to the disk.
    pub failures: u64,
}

/// How much a run has written to its journal, as it is counted. Contracts see nothing of it.
#[derive(Drop)]
pub struct JournalTally {
    bytes: AtomicU64,
    failures: AtomicU64,
}

impl Model for JournalTally {
    ghost use Rattle.std.specs.Prelude.{⊤};

    ghost Value = { ⊤ };

    ghost view = { λ _. tt };
}

impl JournalTally {
    /// Nothing was written.
    pub fn new() -> JournalTally {
        JournalTally {
            bytes: AtomicU64::new(0),
            failures: AtomicU64::new(0),
        }
    }

    /// A write failed.
    fn note_failure(&self) {
        self.failures.fetch_add(1, Ordering::Relaxed);
    }

    /// A write took so many bytes. It failed where it took none of some.
    fn note_write(&self, taken: usize, is_empty: bool) {
        if taken == 0 && !is_empty {
            self.note_failure();
        } else {
            self.bytes.fetch_add(taken as u64, Ordering::Relaxed);
        }
    }

    /// How much was written so far.
    pub fn counts(&self) -> JournalCounts {
        JournalCounts {
            bytes: self.bytes.load(Ordering::Relaxed),
            failures: self.failures.load(Ordering::Relaxed),
        }
    }
}

/// The device of a journal, whose writes are counted.
#[derive(Drop)]
pub struct Tallied<'x, W> {
    /// The device.
    pub device: W,
    tally: &'x JournalTally,
}

impl<'x, W> Tallied<'x, W> {
    /// The device, whose writes are counted there from now on.
    pub fn new(device: W, tally: &'x JournalTally) -> Tallied<'x, W>
        ensures { result.device ≡ device }
    {
        Tallied { device, tally }
    }

    /// The device.
    pub fn into_inner(self) -> W
        ensures { result ≡ self.entry.device }
    {
        let Tallied { device, tally: _ } = self;
        device
    }
}

impl<W: Write> Write for Tallied<'_, W> {
    ghost contents = { λ t. W.contents t.device };

    fn write(&mut self, buf: &[u8]) -> io::Result<usize>
        ensures bound { WritesAtMost result buf.now }
        ensures bytes { WriteAppends
            (W.contents self.old.device) (W.contents self.new.device) result buf.now }
    {
        match self.device.write(buf) {
            Ok(taken) => {
                self.tally.note_write(taken, buf.is_empty());
                Ok(taken)
            }
            Err(error) => {
                self.tally.note_failure();
                Err(error)
            }
        }
    }

    fn flush(&mut self) -> io::Result<()>
        ensures bytes { Keeps (W.contents self.old.device) (W.contents self.new.device) }
    {
        match self.device.flush() {
            Ok(()) => Ok(()),
            Err(error) => {
                self.tally.note_failure();
                Err(error)
            }
        }
    }
}
