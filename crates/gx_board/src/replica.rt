//! A gate of a board's own, which follows a gate that threads share.

ghost use Rattle.std.specs.Prelude.{◌≡◌, ◌+◌, ◌≤◌, ◌++◌, [], length, IfOk, IsFalse, IsTrue, OnOk};
ghost use mathlib.Core.List.{IsPrefix};
ghost use Rattle.gx_history.specs.Verdicts.{IsLegal};
ghost use Rattle.gx_pass.specs.Views.{mine};
ghost use Rattle.gx_door.specs.Acts.{IsLater};
ghost use Rattle.gx_board.specs.{Replicas.IsReplica, Views.IsView};

use crate::repeating::repeat_all;
use crate::summary::Summary;
use crate::view::{BoardView, view_of};
use gx_access_gate::AccessGate;
use gx_door::Door;
use gx_history::record::Record;
use gx_policy::Policy;
use gx_records::{ShowsRecords, ShowsState};
use gx_units::{OutOfMemory, UserName};
use std::alloc::Global;
use std::marker::Model;
use std::sync::Wait;

/// So many records are copied at one hold of the shared gate's lock: nothing else is done for a board under it.
const PORTION: usize = 250;

/// A gate of one's own that makes the steps of a shared gate's day again, and a summary of its records. Contracts see the policy
/// and the records that it has.
///
/// It ends by `close`, and is never dropped.
pub struct Replica<G: AccessGate> {
    gate: G,
    summary: Summary,
}

impl<G: AccessGate> Model for Replica<G> {
    ghost use Rattle.gx_access_gate.specs.Gates.{GateData};
    ghost use Rattle.gx_board.specs.Summaries.{IsSummaryBehind};

    ghost Value = { GateData };

    ghost view = { λ r. G.state r.gate };

    ghost invariant = { λ r. IsSummaryBehind
        (G.state r.gate).policy (G.state r.gate).records r.summary };
}

impl<G: ShowsRecords + ShowsState> Replica<G> {
    /// One that has no record yet, with a copy of the policy.
    ///
    /// # Errors
    ///
    /// `OutOfMemory` where memory was refused.
    pub fn open(alloc: Global, policy: &Policy) -> Result<Replica<G>, OutOfMemory>
        ensures policy { IfOk result (λ r. r.policy ≡ policy.now) }
        ensures records { IfOk result (λ r. r.records ≡ []) }
    {
        let summary = Summary::new(alloc, policy)?;
        let gate = G::open(alloc, policy)?;
        Ok(Replica { gate, summary })
    }

    /// Makes the steps of these records, which come behind its own in a legal day.
    #[tactic(auto, using(crate::proofs::Replica_next::summary_behind))]
    fn take(&mut self, alloc: Global, records: &[Record]) -> Result<(), OutOfMemory>
        requires legal { IsLegal self.old.policy (self.old.records ++ records.now) }
        ensures policy { self.new.policy ≡ self.old.policy }
        ensures all { OnOk result (self.new.records ≡ self.old.records ++ records.now) }
        ensures front { IsPrefix self.new.records (self.old.records ++ records.now) }
    {
        repeat_all(&mut self.gate, records)?;
        self.summary.catch_up(alloc, &self.gate)
    }

    /// Follows 250 of the records at most that the shared gate has behind its own: they are copied under that gate's lock, and
    /// their steps are made outside of it. Answers whether it has all that the pass has met.
    ///
    /// # Errors
    ///
    /// `OutOfMemory` where memory was refused. What was followed by then stays so.
    pub fn follow<D: Door, R: Wait>(
        &mut self,
        rt: &R,
        door: &D,
        alloc: Global,
        pass: D::Pass,
    ) -> (D::Pass, Result<bool, OutOfMemory>)
        requires replica { IsReplica D.policy (D.observed pass).front self.old }
        ensures later { IsLater D.policy (D.observed pass) (D.observed result.0) }
        ensures own { mine (D.observed result.0) ≡ mine (D.observed pass) }
        ensures replica { IsReplica D.policy (D.observed result.0).front self.new }
        ensures all { IfOk result.1 (λ all. IsTrue all
            → self.new.records ≡ (D.observed result.0).front) }
        ensures most { length self.new.records ≤ length self.old.records + 250 }
        ensures further { IfOk result.1 (λ all. IsFalse all
            → length self.new.records ≡ length self.old.records + 250) }
    {
        let from = self.gate.length() + 1;
        let (pass, found) = door.records(rt, pass, from, PORTION as u64);
        let records = match found {
            Ok(records) => records,
            Err(refused) => return (pass, Err(refused)),
        };
        match self.take(alloc, records.as_slice()) {
            Ok(()) => (pass, Ok(records.len() < PORTION)),
            Err(refused) => (pass, Err(refused)),
        }
    }

    /// What the viewer is shown behind the records that it has.
    ///
    /// # Errors
    ///
    /// `OutOfMemory` where memory was refused.
    pub fn view(&mut self, alloc: Global, viewer: UserName) -> Result<BoardView, OutOfMemory>
        ensures same { self.new ≡ self.old }
        ensures view { IfOk result (IsView self.old.policy self.old.records viewer) }
    {
        self.summary.catch_up(alloc, &self.gate)?;
        view_of(alloc, &self.gate, &self.summary, viewer)
    }

    /// Lets it go.
    pub fn close(self) {
        let Replica { gate, summary: _ } = self;
        gate.close();
    }
}
