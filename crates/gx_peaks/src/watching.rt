//! How the peaks are kept while the records of a day are made again.

use crate::peaks::Peaks;
use crate::touched::{gains_of, set_in};
use gx_history::record::RecordData;
use gx_records::{ShowsState, Watches};
use gx_units::OutOfMemory;

impl<G: ShowsState> Watches<G> for Peaks {
    ghost use Rattle.gx_peaks.specs.Noting.{AreOver, IsExpecting};

    ghost asked = { λ _. tt };

    ghost saw = { λ peaks policy records. AreOver policy records peaks };

    ghost expects = { λ peaks policy records next. IsExpecting policy records next peaks };

    fn before(&mut self, gate: &G, next: &RecordData) -> Result<(), OutOfMemory> {
        self.seller = gains_of(gate, next);
        Ok(())
    }

    fn after(&mut self, gate: &G, left: &RecordData) -> Result<(), OutOfMemory> {
        // that the records are a legal day under a sound policy, which what raises no figure rests on
        gate.is_legal();
        let _ = gate.policy().rules();
        self.table.note_order(gate, left.number)?;
        self.table.note_gain(gate, self.seller)?;
        self.table.note_setting(gate, set_in(left))
    }
}
