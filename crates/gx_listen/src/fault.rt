//! Why a server gave up.

use gx_pass::PassFault;
use gx_units::OutOfMemory;
use std::io;
use thiserror::Error;

/// Why a server gave up.
#[derive(Clone, Copy, Debug, Error)]
pub enum ServeFault {
    /// A growth was refused.
    #[error("out of memory")]
    OutOfMemory,
    /// No connection could be accepted: what the system said of the last try.
    #[error("listen failed: {0}")]
    ListenFailed(io::Error),
    /// Each line was issued already, so that no pass was left for the matcher.
    #[error("no lines left")]
    NoLines,
}

impl From<OutOfMemory> for ServeFault {
    fn from(_refused: OutOfMemory) -> ServeFault {
        ServeFault::OutOfMemory
    }
}

impl From<PassFault> for ServeFault {
    fn from(fault: PassFault) -> ServeFault {
        match fault {
            PassFault::OutOfMemory => ServeFault::OutOfMemory,
            PassFault::NoLines => ServeFault::NoLines,
        }
    }
}
