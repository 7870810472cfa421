//! Why a script ended early.

ghost use Rattle.std.specs.Prelude.{◌≡◌};
ghost use Rattle.gx_script_run.specs.declared.script_fault.LineFault.TheVariants as line_faults;

use gx_devices::WriteFault;
use gx_script_text::Wrong;
use gx_units::OutOfMemory;
use thiserror::Error;

/// Why a script ended early. What was printed by then stands, and so do the steps.
#[derive(Clone, Copy, Debug, PartialEq, Eq, Error)]
pub enum ScriptFault {
    /// The line of this number, the first being 1, is no line of a script.
    #[error("line {0}: bad step")]
    BadLine(u64),
    /// The reader failed.
    #[error("read failed")]
    ReadFailed,
    /// The writer failed, or took none of some bytes.
    #[error("write failed")]
    WriteFailed,
    /// A growth was refused.
    #[error("out of memory")]
    OutOfMemory,
    /// The input has not ended after 1,000,000,000 reads.
    #[error("endless input")]
    Endless,
}

impl From<WriteFault> for ScriptFault {
    ghost use Rattle.gx_script_run.specs.ScriptPiping.{fault_of_write};

    ghost from_gives = { λ stopped e. e ≡ fault_of_write stopped };

    fn from(stopped: WriteFault) -> ScriptFault {
        match stopped {
            WriteFault::OutOfMemory => ScriptFault::OutOfMemory,
            WriteFault::WriteFailed => ScriptFault::WriteFailed,
        }
    }
}

/// Why a script ended early, and, where a line was bad, what is wrong with it.
#[derive(Clone, Copy, PartialEq, Eq)]
pub struct Explained {
    /// Why it ended.
    pub fault: ScriptFault,
    /// What is wrong with the line, where a line was bad.
    pub wrong: Option<Wrong>,
}

/// Why a line did nothing, or printed nothing.
#[derive(Clone, Copy, PartialEq, Eq)]
pub(crate) enum LineFault {
    Bad(Wrong),
    OutOfMemory,
}

impl From<Wrong> for LineFault {
    ghost from_gives = { λ wrong e. e ≡ line_faults.Bad wrong };

    fn from(wrong: Wrong) -> LineFault {
        LineFault::Bad(wrong)
    }
}

impl From<OutOfMemory> for LineFault {
    ghost from_gives = { λ _ e. e ≡ line_faults.OutOfMemory };

    fn from(_refused: OutOfMemory) -> LineFault {
        LineFault::OutOfMemory
    }
}
