//! Two that look on together.

use gx_access_gate::AccessGate;
use gx_history::record::RecordData;
use gx_records::Watches;
use gx_units::OutOfMemory;

/// Two that look on together: what each keeps is kept.
#[derive(Drop)]
pub struct Both<A, B> {
    /// The one, which is told of each record first.
    pub first: A,
    /// The other, which is told behind it.
    pub second: B,
}

impl<G: AccessGate, A: Watches<G>, B: Watches<G>> Watches<G> for Both<A, B> {
    ghost Asked = { A.Asked × B.Asked };

    ghost asked = { λ both. (A.asked both.first, B.asked both.second) };

    ghost saw = { λ both policy records.
        A.saw both.first policy records × B.saw both.second policy records };

    ghost expects = { λ both policy records next.
        A.expects both.first policy records next × B.expects both.second policy records next };

    fn before(&mut self, gate: &G, next: &RecordData) -> Result<(), OutOfMemory> {
        self.first.before(gate, next)?;
        self.second.before(gate, next)
    }

    fn after(&mut self, gate: &G, left: &RecordData) -> Result<(), OutOfMemory> {
        self.first.after(gate, left)?;
        self.second.after(gate, left)
    }
}
