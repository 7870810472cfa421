//! The server's ends of a connection in memory: a reader and a writer.

use crate::connection::{MemoryConnection, ReadAttempt};
use std::io::{ErrorKind, Read, Write};
use std::sync::Wait;
use std::time::{Clock, Duration};
use std::{io, thread};

/// How many microseconds a read that finds nothing sleeps before it tries again.
const POLL_INTERVAL_MICROS: u64 = 50;

/// What the server reads from. A read waits for bytes, for the end, or until the server has hung up.
pub(crate) struct MemoryReader<'x, R> {
    rt: &'x R,
    connection: &'x MemoryConnection,
}

impl<'x, R> MemoryReader<'x, R> {
    /// Over this connection.
    pub(crate) fn new(rt: &'x R, connection: &'x MemoryConnection) -> MemoryReader<'x, R> {
        MemoryReader { rt, connection }
    }
}

impl<R> Drop for MemoryReader<'_, R> {
    fn drop(self) {
        let MemoryReader {
            rt: _,
            connection: _,
        } = self;
    }
}

impl<R: Wait + Clock> Read for MemoryReader<'_, R> {
    fn read(&mut self, buf: &mut [u8]) -> io::Result<usize> {
        let most = buf.len();
        for _ in self.rt.forever() {
            match self.connection.take(self.rt, buf) {
                ReadAttempt::Bytes(count) => return Ok(count.min(most)),
                ReadAttempt::Nothing => thread::sleep(
                    self.rt,
                    Duration::from_micros(POLL_INTERVAL_MICROS),
                ),
            }
        }
        unreachable!()
    }
}

/// What the server writes to. A write waits while the connection's writes are paused.
pub(crate) struct MemoryWriter<'x, R> {
    rt: &'x R,
    connection: &'x MemoryConnection,
}

impl<'x, R> MemoryWriter<'x, R> {
    /// Over this connection.
    pub(crate) fn new(rt: &'x R, connection: &'x MemoryConnection) -> MemoryWriter<'x, R> {
        MemoryWriter { rt, connection }
    }
}

impl<R> Drop for MemoryWriter<'_, R> {
    fn drop(self) {
        let MemoryWriter {
            rt: _,
            connection: _,
        } = self;
    }
}

impl<R: Wait + Clock> Write for MemoryWriter<'_, R> {
    fn write(&mut self, buf: &[u8]) -> io::Result<usize> {
        self.connection.write_pause.pass(self.rt);
        if self.connection.hung_up.is_raised() {
            return Err(io::Error::from(ErrorKind::BrokenPipe));
        }
        match self.connection.write(self.rt, buf) {
            Ok(()) => Ok(buf.len()),
            Err(_) => Err(io::Error::from(ErrorKind::OutOfMemory)),
        }
    }

    fn flush(&mut self) -> io::Result<()> {
        Ok(())
    }
}
