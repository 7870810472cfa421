//! The warnings that are kept, and how they are brought up to one more record.

ghost use Rattle.std.specs.{Prelude.{◌≡◌, fold, is_some, OnOk}, Map.lookup};
ghost use Rattle.indexmap.specs.IndexMap.{IsEmpty};
ghost use Rattle.gx_peaks.specs.Raising.{reading_of};
ghost use Rattle.gx_warnings.specs.{Marks.same_mark, Noting.{with_figure, with_figure_warnings, with_share, with_warning}};

use crate::mark::Mark;
use crate::warning::Warning;
use gx_peaks::figure::Figure;
use gx_peaks::key::{PeakKey, key_of};
use gx_peaks::peak::Reading;
use gx_records::ShowsState;
use gx_units::{OutOfMemory, RuleId};
use indexmap::IndexMap;
use std::alloc::Global;

/// The warnings that were told, in their order, each under its mark.
#[derive(Drop)]
pub struct WarningTable {
    /// Each mark, and its warning.
    pub entries: IndexMap<Mark, Warning>,
}

/// What the figure of the rule, which comes to this, is behind the gate's last record.
fn reading<G: ShowsState>(gate: &G, rule: RuleId, used: u128) -> Reading
    ensures { result ≡ reading_of (G.state gate.now).policy (G.state gate.now).records rule used }
{
    Reading {
        used,
        limit: gate.limit(rule),
        number: gate.length(),
        moment: gate.moment_of_last(),
    }
}

impl WarningTable {
    /// Of no warning.
    pub fn new(alloc: Global) -> WarningTable
        ensures none { IsEmpty result.entries }
    {
        WarningTable {
            entries: IndexMap::new(alloc),
        }
    }

    /// Whether a warning is kept under the mark.
    fn is_kept(&self, mark: Mark) -> bool
        ensures { result ≡ is_some (lookup (same_mark mark) self.now.entries.entries) }
    {
        self.entries.get(&mark).is_some()
    }

    /// Keeps the warning, where it is due and none is kept under its mark.
    fn note(&mut self, mark: Mark, warning: Warning) -> Result<(), OutOfMemory>
        ensures noted { OnOk result (self.new.entries.entries
            ≡ with_warning self.old.entries.entries mark warning) }
    {
        if !warning.is_due() || self.is_kept(mark) {
            return Ok(());
        }
        self.entries.insert(mark, warning)?;
        Ok(())
    }

    /// Keeps a warning of each of the shares that the figure is past in its reading.
    fn note_shares(
        &mut self,
        key: PeakKey,
        figure: Figure,
        now: Reading,
        shares: &[u8],
    ) -> Result<(), OutOfMemory>
        ensures noted { OnOk result (self.new.entries.entries
            ≡ fold (with_share key figure now) self.old.entries.entries shares.now) }
    {
        for share in shares {
            let share = *share;
            let reading = now;
            let warning = Warning {
                figure,
                share,
                reading,
            };
            self.note(Mark { key, share }, warning)?;
        }
        Ok(())
    }

    /// Keeps a warning of each of the shares that the figure is past behind the gate's last record.
    fn note_figure<G: ShowsState>(
        &mut self,
        gate: &G,
        shares: &[u8],
        figure: Figure,
    ) -> Result<(), OutOfMemory>
        ensures noted { OnOk result (self.new.entries.entries
            ≡ with_figure (G.state gate.now).policy (G.state gate.now).records shares.now
            self.old.entries.entries figure) }
    {
        let Some(used) = figure.used(gate) else {
            return Ok(());
        };
        let key = key_of(gate.policy(), figure);
        let now = reading(gate, figure.rule, used);
        self.note_shares(key, figure, now, shares)
    }

    /// Keeps a warning of each of the shares that each of the figures is past behind the gate's last record.
    ///
    /// # Errors
    ///
    /// `OutOfMemory` where memory was refused; then some of the warnings may be kept.
    pub(crate) fn note_figures<G: ShowsState>(
        &mut self,
        gate: &G,
        shares: &[u8],
        figures: &[Figure],
    ) -> Result<(), OutOfMemory>
        ensures noted { OnOk result (self.new.entries.entries
            ≡ with_figure_warnings (G.state gate.now).policy (G.state gate.now).records shares.now
            self.old.entries.entries figures.now) }
    {
        for figure in figures {
            self.note_figure(gate, shares, *figure)?;
        }
        Ok(())
    }
}
