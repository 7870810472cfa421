//! Files that no other program may move, or make longer or shorter, and that grow no longer than they may.

ghost use Rattle.std.specs.{Prelude.{◌≡◌, ◌+◌, ◌-◌, ◌^◌, ◌≤◌, length, min, IfOk, OnErr, OnOk}, Io.{WritesAtMost, KnownBytes.{Keeps, WriteAppends}}};
ghost use Rattle.gx_files.specs.Watching.{standing};

use std::io;
use std::io::{ErrorKind, Write};

/// What is told where a file has another length than it was given.
const CHANGED: &str = "another program has made the file longer or shorter";

/// What is told where a file has lost its name.
const MOVED: &str = "another file has its name, or none";

/// What is told where a file would be longer than the system lets this program make one.
const TOO_LONG: &str = "it would be longer than a file may be (ulimit -f)";

/// What the system tells of an open file.
#[derive(Clone, Copy, PartialEq, Eq)]
pub struct Measure {
    /// How many bytes it has.
    pub length: u64,
    /// Whether it still is the file of the name that it was opened by: it was neither renamed nor removed.
    pub is_named: bool,
}

/// A file of which the system tells whether it is where it was, and how long it is.
pub trait Measured {
    ghost use Rattle.gx_files.specs.declared.watched.Measure.{Measure};

    // That the system has told this of the file.
    ghost told: { Self → Measure → Type 0 };

    /// How many bytes the file has, and whether it still has its name.
    fn measure(&self) -> io::Result<Measure>
        ensures { IfOk result (told self.now) };
}

/// A file, how many bytes it is to have, those that it had and those that were written since, and how many it may have. Before
/// each write the system is asked for it: nothing is written where its length is another, where it has lost its name, or where it
/// would be longer than it may be.
#[derive(Drop)]
pub struct Watched<F> {
    /// The file.
    pub file: F,
    /// How many bytes it is to have.
    pub length: u64,
    /// How many bytes it may have.
    pub most: u64,
}

impl<F: Measured> Watched<F> {
    /// Whether the file has its name, and as many bytes as it is to have.
    pub fn check(&self) -> io::Result<()>
        ensures measured { OnOk result (F.told self.now.file (standing self.now.length)) }
    {
        let found = self.file.measure()?;
        if !found.is_named {
            return Err(io::Error::new(ErrorKind::InvalidData, MOVED));
        }
        if found.length != self.length {
            return Err(io::Error::new(ErrorKind::InvalidData, CHANGED));
        }
        Ok(())
    }

    /// Whether there is room for so many more bytes.
    fn check_room(&self, more: usize) -> io::Result<()>
        ensures within { OnOk result (self.now.length + more ≤ self.now.most) }
    {
        if more as u64 <= self.most.saturating_sub(self.length) && self.length <= self.most {
            Ok(())
        } else {
            Err(io::Error::new(ErrorKind::InvalidData, TOO_LONG))
        }
    }
}

impl<F: Write + Measured> Write for Watched<F> {
    ghost contents = { λ w. F.contents w.file };

    fn write(&mut self, buf: &[u8]) -> io::Result<usize>
        ensures bound { WritesAtMost result buf.now }
        ensures bytes { WriteAppends
            (F.contents self.old.file) (F.contents self.new.file) result buf.now }
        ensures measured { OnOk result (F.told self.old.file (standing self.old.length)) }
        ensures within { OnOk result (self.old.length + length buf.now ≤ self.old.most) }
        ensures counted { IfOk result (λ n.
            self.new.length ≡ min (self.old.length + n) (2 ^ 64 - 1)) }
        ensures same { OnErr result (self.new.length ≡ self.old.length) }
        ensures most { self.new.most ≡ self.old.most }
    {
        self.check_room(buf.len())?;
        self.check()?;
        let n = self.file.write(buf)?;
        self.length = self.length.saturating_add(n as u64);
        Ok(n)
    }

    fn flush(&mut self) -> io::Result<()>
        ensures bytes { Keeps (F.contents self.old.file) (F.contents self.new.file) }
        ensures length { self.new.length ≡ self.old.length }
        ensures most { self.new.most ≡ self.old.most }
    {
        self.file.flush()
    }
}
