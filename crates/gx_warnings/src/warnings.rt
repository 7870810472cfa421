//! The warnings of a day.

ghost use Rattle.std.specs.Prelude.{◌≡◌, ◌∷◌, List, [], IfOk, length, slice_get};
ghost use Rattle.gx_history.specs.declared.record.RecordData.{RecordData};
ghost use Rattle.gx_policy.specs.declared.policy.PolicyData.{PolicyData};
ghost use Rattle.gx_warnings.specs.{Keeping.{AreWarningsKept, warnings_of}, Warnings.AreWarnings};

use crate::table::WarningTable;
use crate::warning::Warning;
use gx_peaks::figure::Figure;
use gx_units::{AccountName, OutOfMemory};
use std::alloc::Global;

/// The warnings of a day, which looks on while its records are made again.
#[derive(Drop)]
pub struct Warnings {
    /// The shares of which it warns: 0, and behind it those that were asked for.
    pub shares: Vec<u8>,
    /// The warnings so far.
    pub table: WarningTable,
    /// The account whose sell the record that comes next fills as the order that came in.
    pub seller: Option<AccountName>,
    /// Room for the figures that a record can move.
    pub figures: Vec<Figure>,
}

/// The shares with 0 in front of them.
fn with_zero(alloc: Global, shares: &[u8]) -> Result<Vec<u8>, OutOfMemory>
    ensures { IfOk result (λ all. all.items ≡ 0 ∷ shares.now) }
{
    let mut all = Vec::new(alloc);
    all.push(0u8)?;
    all.extend_from_slice(shares)?;
    Ok(all)
}

impl Warnings {
    /// Of a day without a record, which will warn of these shares, in hundredths, and of the first use of each limit as of a
    /// share of 0.
    ///
    /// # Errors
    ///
    /// `OutOfMemory` where memory was refused.
    pub fn new(alloc: Global, shares: &[u8]) -> Result<Warnings, OutOfMemory>
        ensures shares { IfOk result (λ warnings. warnings.shares.items ≡ 0 ∷ shares.now) }
        ensures none { (policy : PolicyData) → IfOk result (AreWarningsKept policy []) }
    {
        let shares = with_zero(alloc, shares)?;
        Ok(Warnings {
            shares,
            table: WarningTable::new(alloc),
            seller: None,
            figures: Vec::new(alloc),
        })
    }

    /// How many warnings were told so far: exactly one of each share that was passed behind some record, with the first of
    /// those; in the order of the records.
    pub fn count(&self) -> usize
        ensures count { result ≡ length (warnings_of self.now) }
        ensures exact { (policy : PolicyData) (records : List RecordData)
            → AreWarningsKept policy records self.now
            → AreWarnings policy self.now.shares.items records (warnings_of self.now) }
    {
        self.table.entries.len()
    }

    /// The warning at this place, the first at 0.
    pub fn told(&self, place: usize) -> Option<Warning>
        ensures { result ≡ slice_get (warnings_of self.now) place }
    {
        let (_, warning) = self.table.entries.get_index(place)?;
        Some(*warning)
    }
}
