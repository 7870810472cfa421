//! Why a connection was given up.

ghost use Rattle.std.specs.Prelude.{◌≡◌};
ghost use Rattle.gx_connection.specs.declared.fault.PipeFault.TheVariants as faults;
ghost use Rattle.gx_connection.specs.Faults.{fault_words};

use gx_access_gate::StepFault;
use gx_devices::WriteFault;
use gx_units::OutOfMemory;
use std::error::Error;
use std::fmt;

/// Why a connection was given up. What was written by then stands.
#[derive(Clone, Copy, Debug, PartialEq, Eq)]
pub enum PipeFault {
    /// A growth was refused.
    OutOfMemory,
    /// The reader failed.
    ReadFailed,
    /// The writer failed, or took none of some bytes.
    WriteFailed,
    /// The day has as many records as it may have.
    DayFull,
    /// The input has not ended after 1,000,000,000 reads.
    Endless,
}

impl PipeFault {
    /// What is told of the fault.
    pub fn words(self) -> &'static str
        ensures { result.now ≡ fault_words self }
    {
        match self {
            PipeFault::OutOfMemory => "out of memory",
            PipeFault::ReadFailed => "read failed",
            PipeFault::WriteFailed => "write failed",
            PipeFault::DayFull => "day full",
            PipeFault::Endless => "endless input",
        }
    }
}

impl fmt::Display for PipeFault {
    fn fmt<W: fmt::Write>(&self, f: &mut fmt::Formatter<W>) -> fmt::Result {
        f.write_str(self.words())
    }
}

impl Error for PipeFault {}

impl From<WriteFault> for PipeFault {
    ghost use Rattle.gx_connection.specs.Faults.{fault_of_send};

    ghost from_gives = { λ sent e. e ≡ fault_of_send sent };

    fn from(sent: WriteFault) -> PipeFault {
        match sent {
            WriteFault::OutOfMemory => PipeFault::OutOfMemory,
            WriteFault::WriteFailed => PipeFault::WriteFailed,
        }
    }
}

impl From<OutOfMemory> for PipeFault {
    ghost from_gives = { λ _ e. e ≡ faults.OutOfMemory };

    fn from(_refused: OutOfMemory) -> PipeFault {
        PipeFault::OutOfMemory
    }
}

impl From<StepFault> for PipeFault {
    ghost use Rattle.gx_connection.specs.Faults.{fault_of_step};

    ghost from_gives = { λ refused e. e ≡ fault_of_step refused };

    fn from(refused: StepFault) -> PipeFault {
        match refused {
            StepFault::OutOfMemory => PipeFault::OutOfMemory,
            StepFault::DayFull => PipeFault::DayFull,
        }
    }
}
