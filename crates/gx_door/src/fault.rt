//! Why nothing was pulled.

use gx_units::OutOfMemory;
use thiserror::Error;

/// Why no reports were pulled. Nothing has changed then.
#[derive(Clone, Copy, Debug, PartialEq, Eq, Error)]
pub enum PullFault {
    /// The allocator refused the reports.
    #[error("out of memory")]
    OutOfMemory,
    /// The user is not logged in on the line of the pass.
    #[error("not logged in on this line")]
    NotOn,
}

impl From<OutOfMemory> for PullFault {
    ghost use Rattle.std.specs.Prelude.{◌≡◌};
    ghost use Rattle.gx_door.specs.declared.fault.PullFault.TheVariants as faults;

    ghost from_gives = { λ _ e. e ≡ faults.OutOfMemory };

    fn from(_refused: OutOfMemory) -> PullFault {
        PullFault::OutOfMemory
    }
}
