//! How the warnings are kept while the records of a day are made again.

use crate::warnings::Warnings;
use gx_history::record::RecordData;
use gx_peaks::touched::gains_of;
use gx_records::{ShowsState, Watches};
use gx_units::OutOfMemory;

impl<G: ShowsState> Watches<G> for Warnings {
    ghost use Rattle.std.specs.Prelude.{ℕ, List};
    ghost use Rattle.gx_warnings.specs.Keeping.{AreWarningsKept, AreWarningsExpecting};

    ghost Asked = { List ℕ };

    ghost asked = { λ warnings. warnings.shares.items };

    ghost saw = { λ warnings policy records. AreWarningsKept policy records warnings };

    ghost expects = { λ warnings policy records next. AreWarningsExpecting policy records next warnings };

    fn before(&mut self, gate: &G, next: &RecordData) -> Result<(), OutOfMemory> {
        self.seller = gains_of(gate, next);
        Ok(())
    }

    fn after(&mut self, gate: &G, left: &RecordData) -> Result<(), OutOfMemory> {
        // that the records are a legal day under a sound policy, which what raises no figure rests on
        gate.is_legal();
        let _ = gate.policy().rules();
        self.table
            .list_moved(&mut self.figures, gate, left, self.seller)?;
        self.table
            .note_figures(gate, self.shares.as_slice(), self.figures.as_slice())
    }
}
