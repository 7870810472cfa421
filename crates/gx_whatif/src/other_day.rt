//! The day made again under another policy, while the records of its audit are.

ghost use Rattle.std.specs.Prelude.{◌≡◌, ◌++◌, ◌∷◌, ◌≤◌, [], IfErr, IfOk, OnOk, None, Some, length};
ghost use Rattle.gx_access_gate.specs.declared.outcome.StepFault.TheVariants as faults;
ghost use Rattle.gx_audit_bytes.specs.Reading.{IsAskableStep};
ghost use Rattle.gx_endings.specs.Endings.{Grows};
ghost use Rattle.gx_history.specs.Verdicts.{day_limit, IsLegal};
ghost use Rattle.gx_records.specs.Watching.{earlier_of};
ghost use Rattle.gx_whatif.specs.{Differing.{change_where, verdict_behind}, Redone.{records_behind, redo_where, the_day}};

use crate::change::{VerdictChange, change_where};
use crate::stepping::{add_more, make_step, settle_where, told_in_day};
use crate::waiting::note_waiting;
use gx_access_gate::{AccessGate, StepFault};
use gx_history::record::{RecordData, Verdict};
use gx_policy::Policy;
use gx_records::{ShowsRecords, ShowsState, Watches};
use gx_units::OutOfMemory;
use std::alloc::Global;
use std::marker::{Brand, PhantomData};

/// Names the policy under which a day is made again, so that it is known of a watcher by its type alone.
pub(crate) trait MeansPolicy {
    ghost use Rattle.std.specs.Prelude.{Option};
    ghost use Rattle.gx_policy.specs.declared.policy.PolicyData.{PolicyData};

    ghost meant: { Option PolicyData };
}

impl MeansPolicy for Brand {
    ghost use Rattle.std.specs.Prelude.{None};

    ghost meant = { None };
}

/// Makes each step of a day on a gate of its own under the policy that `N` means, and notes each record whose verdict
/// changes: whoever shows it the gate in front of each record and behind it has all changes here.
pub(crate) struct OtherDay<G: AccessGate, N: MeansPolicy> {
    gate: G,
    sources: Vec<u64>,
    waiting: Vec<u64>,
    /// The changes so far.
    pub changes: Vec<VerdictChange>,
    /// The day under the policy that is meant has no room for a step: nothing is noted from then on.
    pub full: bool,
    of: PhantomData<N>,
}

/// That the gate can be asked for the step of its last record.
fn last_is_askable<G: ShowsRecords>(gate: &G, left: &RecordData)
    requires last { (G.state gate.now).records
        ≡ earlier_of (G.state gate.now).records ++ left.now ∷ [] }
    ensures { IsAskableStep left.now.step }
{
    let records = gate.shown_records();
    if let Some(last) = records.past(records.len().saturating_sub(1)).get(0) {
        // that its step has a verdict of such a step
        last.content();
    }
}

/// Makes the step of the day's record on the gate, and matching steps behind it where the day is at rest. Answers what is
/// told of the record there.
fn redo<G: AccessGate>(
    gate: &mut G,
    sources: &mut Vec<u64>,
    left: &RecordData,
    at_rest: bool,
) -> Result<Option<Verdict>, StepFault>
    requires askable { IsAskableStep left.now.step }
    ensures policy { (G.state gate.new).policy ≡ (G.state gate.old).policy }
    ensures day { OnOk result (redo_where at_rest (G.state gate.old).policy
        (the_day (G.state gate.old) sources.old.items) left.now
        ≡ the_day (G.state gate.new) sources.new.items) }
    ensures told { IfOk result (λ told. told ≡ verdict_behind (G.state gate.old).policy
        (the_day (G.state gate.old) sources.old.items) left.now.step) }
    ensures day_full { IfErr result (λ e. e ≡ faults.DayFull → day_limit ≤ length
        (records_behind
        at_rest (G.state gate.old).policy (G.state gate.old).records left.now)) }
{
    let told = match make_step(gate, left.step) {
        Ok(told) => told_in_day(sources.as_slice(), told),
        Err(fault) => return Err(fault),
    };
    settle_where(gate, at_rest, left.moment)?;
    let count = (gate.length() + 1).saturating_sub(sources.len() as u64);
    add_more(sources, count, left.number)?;
    Ok(told)
}

/// Notes the change of a record of which this is told, if it is one.
fn note_change(
    changes: &mut Vec<VerdictChange>,
    left: &RecordData,
    told: Option<Verdict>,
) -> Result<(), OutOfMemory>
    ensures { OnOk result
        (Grows changes.old.items (change_where left.now told) changes.new.items) }
{
    match change_where(left, told) {
        Some(change) => Ok(changes.push(change)?),
        None => Ok(()),
    }
}

impl<G: AccessGate, N: MeansPolicy> OtherDay<G, N> {
    ghost use Rattle.std.specs.Prelude.{[], true, false};
    ghost use Rattle.gx_policy.specs.declared.policy.PolicyData.{PolicyData};
    ghost use Rattle.gx_whatif.specs.Following.{IsFollowed};

    /// Before any record of a day.
    pub(crate) fn open(alloc: Global, other: &Policy) -> Result<OtherDay<G, N>, OutOfMemory>
        requires meant { N.meant ≡ Some other.now }
        ensures before { IfOk result (λ w. (old : PolicyData) → IsFollowed
            N.meant w.full old (G.state w.gate)
            w.sources.items w.waiting.items w.changes.items []) }
    {
        let sources = Vec::from_slice(alloc, &[0])?;
        let gate = G::open(alloc, other)?;
        Ok(OtherDay {
            gate,
            sources,
            waiting: Vec::new(alloc),
            changes: Vec::new(alloc),
            full: false,
            of: PhantomData,
        })
    }

    /// The changes; None where the day under the policy that is meant had no room for a step.
    pub(crate) fn end(self) -> Option<Vec<VerdictChange>>
        ensures none { self.full ≡ true → result ≡ None }
        ensures some { self.full ≡ false → result ≡ Some self.changes }
        ensures legal { IsLegal (G.state self.gate).policy (G.state self.gate).records }
    {
        // that its records are those of a legal day
        self.gate.is_legal();
        let OtherDay {
            gate,
            sources: _sources,
            waiting: _waiting,
            changes,
            full,
            of: _of,
        } = self;
        gate.close();
        if full { None } else { Some(changes) }
    }
}

impl<G: ShowsRecords + ShowsState, N: MeansPolicy> Watches<G> for OtherDay<G, N> {
    ghost use Rattle.gx_whatif.specs.Following.{IsFollowed};

    ghost asked = { λ _. tt };

    ghost saw = { λ w policy records. IsFollowed
        N.meant w.full policy (G.state w.gate) w.sources.items w.waiting.items w.changes.items records };

    ghost expects = { λ w policy records next. IsFollowed
        N.meant w.full policy (G.state w.gate) w.sources.items w.waiting.items w.changes.items records };

    fn before(&mut self, _gate: &G, _next: &RecordData) -> Result<(), OutOfMemory> {
        Ok(())
    }

    fn after(&mut self, gate: &G, left: &RecordData) -> Result<(), OutOfMemory> {
        last_is_askable(gate, left);
        let at_rest = note_waiting(&mut self.waiting, gate, left)?;
        if self.full {
            return Ok(());
        }
        match redo(&mut self.gate, &mut self.sources, left, at_rest) {
            Ok(told) => note_change(&mut self.changes, left, told),
            Err(StepFault::DayFull) => {
                self.full = true;
                Ok(())
            }
            Err(StepFault::OutOfMemory) => Err(OutOfMemory),
        }
    }
}
