//! A writer that is written to in pieces.

ghost use Rattle.std.specs.Prelude.{◌≡◌, IfOk};

use gx_devices::CallCounter;
use gx_server::ErrorRecorder;
use gx_units::OutOfMemory;
use std::alloc::Global;
use std::io::{BufWriter, Write};

/// So many bytes are held back at most.
const HELD_BACK: usize = 65_536;

/// A writer in front of this device, which holds back what it is given until it is flushed, or until that is too much: a
/// write of the system costs more than a line. Whoever has it flushes it before waiting for anybody, and at the end.
///
/// # Errors
///
/// `OutOfMemory` where memory was refused.
pub fn held_back<W: Write + Drop>(
    alloc: Global,
    device: W,
) -> Result<CallCounter<ErrorRecorder<BufWriter<W, Global>>>, OutOfMemory>
    ensures unfailed { IfOk result (λ writer. writer.failed ≡ 0) }
{
    match BufWriter::with_capacity(alloc, HELD_BACK, device) {
        Ok(buffered) => Ok(CallCounter::new(ErrorRecorder::new(buffered))),
        Err(_) => Err(OutOfMemory),
    }
}
