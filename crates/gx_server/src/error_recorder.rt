//! Devices that note why they fail.

ghost use Rattle.std.specs.{Prelude.{◌≡◌, ◌<◌, None, Some, IfErr, IfOk, OnOk}, Io.{ReadsAtMost, WritesAtMost, KnownBytes.{ReadConsumes, WriteAppends, Keeps}}};

use std::io;
use std::io::{ErrorKind, Read, Write};

/// A reader or a writer, and what the system said of its last call, where that failed. A write that takes none of some
/// bytes is a failure.
#[derive(Drop)]
pub struct ErrorRecorder<D> {
    /// The reader or the writer.
    pub device: D,
    /// What the system said of its last call; None where that did not fail.
    pub cause: Option<io::Error>,
}

impl<D> ErrorRecorder<D> {
    /// The device, with no call yet.
    pub fn new(device: D) -> ErrorRecorder<D>
        ensures device { result.device ≡ device }
        ensures cause { result.cause ≡ None }
    {
        ErrorRecorder {
            device,
            cause: None,
        }
    }
}

/// What is said of a write that took so many bytes, where it was asked to take some.
fn unmoved(taken: usize, is_empty: bool) -> Option<io::Error>
    ensures { 0 < taken → result ≡ None }
{
    if taken > 0 || is_empty {
        return None;
    }
    Some(io::Error::from(ErrorKind::WriteZero))
}

impl<D: Read> Read for ErrorRecorder<D> {
    ghost remaining = { λ n. D.remaining n.device };

    fn read(&mut self, buf: &mut [u8]) -> io::Result<usize>
        ensures bound { ReadsAtMost result buf.new }
        ensures bytes { ReadConsumes
            (D.remaining self.old.device) (D.remaining self.new.device) result buf.new }
        ensures none { OnOk result (self.new.cause ≡ None) }
        ensures noted { IfErr result (λ e. self.new.cause ≡ Some e) }
    {
        match self.device.read(buf) {
            Ok(n) => {
                self.cause = None;
                Ok(n)
            }
            Err(error) => {
                self.cause = Some(error);
                Err(error)
            }
        }
    }
}

impl<D: Write> Write for ErrorRecorder<D> {
    ghost contents = { λ n. D.contents n.device };

    fn write(&mut self, buf: &[u8]) -> io::Result<usize>
        ensures bound { WritesAtMost result buf.now }
        ensures bytes { WriteAppends
            (D.contents self.old.device) (D.contents self.new.device) result buf.now }
        ensures none { IfOk result (λ n. 0 < n → self.new.cause ≡ None) }
        ensures noted { IfErr result (λ e. self.new.cause ≡ Some e) }
    {
        match self.device.write(buf) {
            Ok(n) => {
                self.cause = unmoved(n, buf.is_empty());
                Ok(n)
            }
            Err(error) => {
                self.cause = Some(error);
                Err(error)
            }
        }
    }

    fn flush(&mut self) -> io::Result<()>
        ensures bytes { Keeps (D.contents self.old.device) (D.contents self.new.device) }
        ensures none { OnOk result (self.new.cause ≡ None) }
        ensures noted { IfErr result (λ e. self.new.cause ≡ Some e) }
    {
        match self.device.flush() {
            Ok(()) => {
                self.cause = None;
                Ok(())
            }
            Err(error) => {
                self.cause = Some(error);
                Err(error)
            }
        }
    }
}
