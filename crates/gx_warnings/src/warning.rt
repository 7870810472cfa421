//! A share of a limit that was passed.

ghost use Rattle.std.specs.Prelude.{◌≡◌};
ghost use Rattle.gx_warnings.specs.Warnings.{passes};

use crate::passing::passes;
use gx_peaks::figure::Figure;
use gx_peaks::peak::Reading;

/// A share of a limit that a figure has passed, and what the figure and the limit were behind the first record behind which it
/// had. The share 0 stands for all that is above 0.
#[derive(Clone, Copy, PartialEq, Eq)]
pub struct Warning {
    /// The rule, an account that it is for, and the side of a stock that a net rule counts.
    pub figure: Figure,
    /// So many hundredths of the limit.
    pub share: u8,
    /// What was used, and the limit in force, behind the record of this number and this moment.
    pub reading: Reading,
}

impl Warning {
    /// Whether the figure is past the share in its reading.
    pub(crate) fn is_due(self) -> bool
        ensures { result ≡ passes self.share self.reading.used self.reading.limit }
    {
        passes(self.share, self.reading.used, self.reading.limit)
    }
}
