//! Who writes what is told.

ghost use Rattle.std.specs.{Prelude.{◌<◌, ◌^◌, ◌-◌, OnOk}, Io.KnownBytes.Appends};
ghost use Rattle.gx_log.specs.Queues.{left_out_line, queue_text};

use crate::log::Log;
use crate::queue::{Batch, LOG_ROOM};
use gx_devices::{CallCounter, WriteFailed, write_whole};
use itoa::Buffer;
use std::io::Write;
use std::sync::Wait;
use std::thread;
use std::time::{Clock, Duration};

/// So many microseconds lie at least between two times that lines are written, for each byte of the first: at most some 65,000 bytes
/// are written a second.
const LINE_REST_MICROS: u64 = 15;

/// Writes how many lines were left out; nothing where none was.
fn write_left_out<W: Write>(count: u64, writer: &mut CallCounter<W>) -> Result<(), WriteFailed>
    requires { writer.old.failed < 2 ^ 64 - 1 }
    ensures written { OnOk result (Appends
        (W.contents writer.old.device) (W.contents writer.new.device) (left_out_line count)) }
{
    if count == 0 {
        return Ok(());
    }
    let mut digits = Buffer::new();
    write_whole(writer, b"gate: ")?;
    write_whole(writer, digits.format(count).as_bytes())?;
    write_whole(
        writer,
        b" lines were left out: standard error was not read in time\n",
    )
}

/// Writes lines that were taken, and behind them how many were left out.
///
/// # Errors
///
/// `WriteFailed` where the writer failed; then a part of it may be written.
pub fn write_batch<W: Write>(batch: &Batch, writer: &mut CallCounter<W>) -> Result<(), WriteFailed>
    requires { writer.old.failed < 2 ^ 64 - 1 }
    ensures written { OnOk result (Appends
        (W.contents writer.old.device) (W.contents writer.new.device) (queue_text batch.now)) }
{
    write_whole(writer, batch.text())?;
    write_left_out(batch.left_out(), writer)
}

/// Writes what is told, until the log is closed. What can't be written is let go.
pub fn write_on<W: Write, R: Wait + Clock>(rt: &R, log: &Log, writer: &mut W) {
    for _ in rt.forever() {
        let closed = log.is_closed();
        let batch = log.take(rt);
        let _ = write_batch(&batch, &mut CallCounter::new(&mut *writer));
        let count = batch.text().len().min(LOG_ROOM) as u64;
        if closed && count == 0 {
            return;
        }
        thread::sleep(rt, Duration::from_micros(LINE_REST_MICROS * count));
    }
}
