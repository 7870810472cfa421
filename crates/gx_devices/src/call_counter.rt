//! Devices whose calls and failures are counted.

ghost use Rattle.std.specs.{Prelude.{◌≡◌, ◌<◌, length, IfOk, OnOk, OnErr}, Io.{ReadsAtMost, WritesAtMost, KnownBytes.{ReadConsumes, WriteAppends, Keeps}}};
ghost use Rattle.gx_devices.specs.Devices.{one_more};

use std::io;
use std::io::{ErrorKind, Read, Write};
use std::marker::Model;

/// How often a call that a signal interrupts is made again before it counts as failed.
const RETRIES: u32 = 1_000;

/// A reader or a writer, with counts of its calls and of those that failed. A call with no room or no bytes does not
/// count as a call; a write that takes none of some bytes is a failure. A call that a signal interrupts is made again.
/// The counts stay at 2^64 - 1 once they are there, and nothing but the calls raises them.
#[derive(Drop)]
pub struct CallCounter<D> {
    device: D,
    calls: u64,
    failed: u64,
}

impl<D> Model for CallCounter<D> {
    ghost use Rattle.gx_devices.specs.Devices.{CountedData};

    ghost Value = { CountedData D };

    ghost view = { λ c. record { device = c.device; calls = c.calls; failed = c.failed } };
}

fn read_again<D: Read>(device: &mut D, buf: &mut [u8]) -> io::Result<usize>
    ensures bound { ReadsAtMost result buf.new }
    ensures bytes { ReadConsumes (D.remaining device.old) (D.remaining device.new) result buf.new }
{
    for _ in 0..RETRIES {
        match device.read(buf) {
            Err(e) if e.kind() == ErrorKind::Interrupted => {}
            ended => return ended,
        }
    }
    device.read(buf)
}

fn write_again<D: Write>(device: &mut D, buf: &[u8]) -> io::Result<usize>
    ensures bound { WritesAtMost result buf.now }
    ensures bytes { WriteAppends (D.contents device.old) (D.contents device.new) result buf.now }
{
    for _ in 0..RETRIES {
        match device.write(buf) {
            Err(e) if e.kind() == ErrorKind::Interrupted => {}
            ended => return ended,
        }
    }
    device.write(buf)
}

impl<D> CallCounter<D> {
    /// The device, with no call yet.
    pub fn new(device: D) -> CallCounter<D>
        ensures device { result.device ≡ device }
        ensures calls { result.calls ≡ 0 }
        ensures failed { result.failed ≡ 0 }
    {
        CallCounter {
            device,
            calls: 0,
            failed: 0,
        }
    }

    /// How many calls failed.
    /// For the cases: they tell how many reads and writes failed.
    pub fn failed(&self) -> u64
        ensures { result ≡ self.now.failed }
    {
        self.failed
    }

    /// The device.
    pub fn device(&self) -> &D
        ensures { result.now ≡ self.now.device }
    {
        &self.device
    }

    /// The device.
    pub fn into_inner(self) -> D
        ensures { result ≡ self.device }
    {
        self.device
    }
}

impl<D: Read> Read for CallCounter<D> {
    ghost remaining = { λ c. D.remaining c.device };

    fn read(&mut self, buf: &mut [u8]) -> io::Result<usize>
        ensures bound { ReadsAtMost result buf.new }
        ensures bytes { ReadConsumes
            (D.remaining self.old.device) (D.remaining self.new.device) result buf.new }
        ensures called { 0 < length buf.new → self.new.calls ≡ one_more self.old.calls }
        ensures roomless { length buf.new ≡ 0 → self.new.calls ≡ self.old.calls }
        ensures kept { OnOk result (self.new.failed ≡ self.old.failed) }
        ensures counted { OnErr result (self.new.failed ≡ one_more self.old.failed) }
    {
        if !buf.is_empty() {
            self.calls = self.calls.saturating_add(1);
        }
        match read_again(&mut self.device, buf) {
            Ok(n) => Ok(n),
            Err(e) => {
                self.failed = self.failed.saturating_add(1);
                Err(e)
            }
        }
    }
}

impl<D: Write> Write for CallCounter<D> {
    ghost contents = { λ c. D.contents c.device };

    fn write(&mut self, buf: &[u8]) -> io::Result<usize>
        ensures bound { WritesAtMost result buf.now }
        ensures bytes { WriteAppends
            (D.contents self.old.device) (D.contents self.new.device) result buf.now }
        ensures called { 0 < length buf.now → self.new.calls ≡ one_more self.old.calls }
        ensures nothing { length buf.now ≡ 0 → self.new.calls ≡ self.old.calls }
        ensures kept { IfOk result (λ n. 0 < n → self.new.failed ≡ self.old.failed) }
        ensures empty { IfOk result (λ n.
            length buf.now ≡ 0 → self.new.failed ≡ self.old.failed) }
        ensures counted { IfOk result (λ n.
            n ≡ 0 → 0 < length buf.now → self.new.failed ≡ one_more self.old.failed) }
        ensures failed { OnErr result (self.new.failed ≡ one_more self.old.failed) }
    {
        if !buf.is_empty() {
            self.calls = self.calls.saturating_add(1);
        }
        match write_again(&mut self.device, buf) {
            Ok(n) => {
                if n == 0 && !buf.is_empty() {
                    self.failed = self.failed.saturating_add(1);
                }
                Ok(n)
            }
            Err(e) => {
                self.failed = self.failed.saturating_add(1);
                Err(e)
            }
        }
    }

    fn flush(&mut self) -> io::Result<()>
        ensures bytes { Keeps (D.contents self.old.device) (D.contents self.new.device) }
        ensures calls { self.new.calls ≡ self.old.calls }
        ensures kept { OnOk result (self.new.failed ≡ self.old.failed) }
        ensures counted { OnErr result (self.new.failed ≡ one_more self.old.failed) }
    {
        match self.device.flush() {
            Ok(()) => Ok(()),
            Err(e) => {
                self.failed = self.failed.saturating_add(1);
                Err(e)
            }
        }
    }
}
