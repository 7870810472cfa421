//! Under what a warning is kept.

use gx_peaks::key::PeakKey;
use std::hash::{Hash, Hasher};

/// Whose figure it is, and which share of the limit: warnings of one mark are one warning.
#[derive(Clone, Copy, PartialEq, Eq)]
pub struct Mark {
    /// The key of the figure.
    pub key: PeakKey,
    /// So many hundredths of the limit.
    pub share: u8,
}

impl Hash for Mark {
    ghost use Rattle.gx_warnings.specs.Marks.{mark_bytes};
    ghost use Rattle.gx_warnings.specs.Marks.{same_mark_bytes};

    ghost hash_input = { mark_bytes };

    ghost respects_eq = { same_mark_bytes };

    fn hash<H: Hasher>(&self, state: &mut H) {
        self.key.hash(state);
    }
}
