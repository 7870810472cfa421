//! Writing all of some bytes.

ghost use Rattle.std.specs.{Prelude.{◌≡◌, ◌+◌, ◌-◌, ◌^◌, ◌<◌, OnOk, OnErr}, Io.KnownBytes.Appends};
ghost use Rattle.gx_devices.specs.Devices.{IsFront};

use crate::call_counter::CallCounter;
use std::io::Write;

/// The writer failed, at a write or at a flush, or took none of some bytes.
#[derive(Clone, Copy, PartialEq, Eq)]
pub struct WriteFailed;

/// Writes all of the bytes, and flushes the writer; where the writer fails, a front of them, or all.
pub fn write_whole<W: Write>(writer: &mut CallCounter<W>, bytes: &[u8]) -> Result<(), WriteFailed>
    requires { writer.old.failed < 2 ^ 64 - 1 }
    ensures whole { OnOk result (Appends
        (W.contents writer.old.device) (W.contents writer.new.device) bytes.now) }
    ensures front { OnErr result (IsFront
        (W.contents writer.old.device) (W.contents writer.new.device) bytes.now) }
    ensures kept { OnOk result (writer.new.failed ≡ writer.old.failed) }
    ensures told { OnErr result (writer.old.failed < writer.new.failed) }
{
    write_flushing(writer, bytes, true)
}

/// Writes all of the bytes, and flushes the writer behind them only where that is asked for; where the writer fails, a
/// front of them, or all. Who flushes later must do so before waiting for whoever is to see the bytes.
pub fn write_flushing<W: Write>(
    writer: &mut CallCounter<W>,
    bytes: &[u8],
    flushes: bool,
) -> Result<(), WriteFailed>
    requires { writer.old.failed < 2 ^ 64 - 1 }
    ensures whole { OnOk result (Appends
        (W.contents writer.old.device) (W.contents writer.new.device) bytes.now) }
    ensures front { OnErr result (IsFront
        (W.contents writer.old.device) (W.contents writer.new.device) bytes.now) }
    ensures kept { OnOk result (writer.new.failed ≡ writer.old.failed) }
    ensures told { OnErr result (writer.old.failed < writer.new.failed) }
{
    let mut done = 0;
    while done < bytes.len() {
        match writer.write(&bytes[done..]) {
            Ok(n) if n > 0 => done += n,
            _ => return Err(WriteFailed),
        }
    }
    if !flushes {
        return Ok(());
    }
    match writer.flush() {
        Ok(()) => Ok(()),
        Err(_) => Err(WriteFailed),
    }
}
