//! Why not all was written.

ghost use Rattle.std.specs.Prelude.{◌≡◌};
ghost use Rattle.gx_devices.specs.declared.fault.WriteFault.TheVariants as faults;

use crate::write::WriteFailed;
use gx_units::OutOfMemory;
use thiserror::Error;

/// Why not all was written. What was written by then is a front of it.
#[derive(Clone, Copy, Debug, PartialEq, Eq, Error)]
pub enum WriteFault {
    /// A growth was refused.
    #[error("out of memory")]
    OutOfMemory,
    /// The writer failed, or took none of some bytes.
    #[error("write failed")]
    WriteFailed,
}

impl From<OutOfMemory> for WriteFault {
    ghost from_gives = { λ _ e. e ≡ faults.OutOfMemory };

    fn from(_refused: OutOfMemory) -> WriteFault {
        WriteFault::OutOfMemory
    }
}

impl From<WriteFailed> for WriteFault {
    ghost from_gives = { λ _ e. e ≡ faults.WriteFailed };

    fn from(_failed: WriteFailed) -> WriteFault {
        WriteFault::WriteFailed
    }
}
