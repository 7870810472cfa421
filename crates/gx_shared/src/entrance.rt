//! Where passes to a gate are issued.

use crate::counted_pass::CountedPass;
use crate::permit::Permits;
use crate::shared::SharedGate;
use gx_access_gate::AccessGate;
use gx_door::Issuer;
use gx_journal::{JournalName, Journaled};
use gx_pass::{GateName, PassFault};
use gx_records::{ShowsRecords, ShowsState};
use std::io::Write;
use std::sync::Wait;

/// Issues the passes to a gate, for permits of its ledger.
#[derive(Drop)]
pub struct Entrance<'x, G: AccessGate, N: GateName> {
    gate: &'x SharedGate<G, N>,
    permits: Permits<N>,
}

impl<'x, G: AccessGate, N: GateName> Entrance<'x, G, N> {
    /// The entrance of this gate, with these permits.
    pub fn new(gate: &'x SharedGate<G, N>, permits: Permits<N>) -> Entrance<'x, G, N> {
        Entrance { gate, permits }
    }
}

impl<G: ShowsRecords + ShowsState, N: GateName> Issuer<SharedGate<G, N>> for Entrance<'_, G, N> {
    ghost left = { λ e. e.permits.left };

    ghost last = { λ e. e.permits.issued };

    fn issue<R: Wait>(&mut self, rt: &R) -> Result<CountedPass<N>, PassFault> {
        self.gate.issue(rt, &mut self.permits)
    }
}

impl<G: ShowsRecords + ShowsState, N: GateName, W: Write, J: JournalName> Issuer<
    Journaled<'_, SharedGate<G, N>, W, J>,
> for Entrance<'_, G, N> {
    ghost left = { λ e. e.permits.left };

    ghost last = { λ e. e.permits.issued };

    fn issue<R: Wait>(&mut self, rt: &R) -> Result<CountedPass<N>, PassFault> {
        self.gate.issue(rt, &mut self.permits)
    }
}
