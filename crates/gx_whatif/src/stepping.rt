//! A step of the day on a gate under another policy.

ghost use Rattle.std.specs.Prelude.{◌≡◌, ◌≤◌, IfErr, IfOk, OnOk, length, option_map};
ghost use Rattle.gx_access_gate.specs.declared.outcome.StepFault.TheVariants as faults;
ghost use Rattle.gx_audit_bytes.specs.Reading.{IsAskableStep};
ghost use Rattle.gx_history.specs.{declared.record.RecordData.RecordData, Settling.settled_records, Verdicts.{after_step, day_limit, next}};
ghost use Rattle.gx_whatif.specs.{Differing.in_day, Redone.{settled_where, with_more}};

use crate::change::in_day;
use gx_access_gate::{AccessGate, StepFault};
use gx_history::record::{Step, Verdict};
use gx_units::{Moment, OutOfMemory};

/// Makes the step. Answers the verdict of the record that it leaves, if it leaves one.
pub(crate) fn make_step<G: AccessGate>(
    gate: &mut G,
    step: Step,
) -> Result<Option<Verdict>, StepFault>
    requires askable { IsAskableStep step }
    ensures policy { (G.state gate.new).policy ≡ (G.state gate.old).policy }
    ensures records { OnOk result ((G.state gate.new).records
        ≡ after_step (G.state gate.old).policy (G.state gate.old).records step) }
    ensures told { IfOk result (λ told. told ≡ option_map (λ (r : RecordData). r.verdict)
        (next (G.state gate.old).policy (G.state gate.old).records step)) }
    ensures day_full { IfErr result (λ e. e ≡ faults.DayFull
        → day_limit ≤ length (G.state gate.old).records) }
{
    match step {
        Step::Asked(asked) => {
            let outcome = gate.step(asked)?;
            Ok(Some(outcome.verdict))
        }
        Step::Matching(handed) => match gate.match_one(handed)? {
            Some(outcome) => Ok(Some(outcome.verdict)),
            None => Ok(None),
        },
    }
}

/// Makes matching steps at this moment until no order waits, where the day is at rest.
pub(crate) fn settle_where<G: AccessGate>(
    gate: &mut G,
    at_rest: bool,
    moment: Moment,
) -> Result<(), StepFault>
    ensures policy { (G.state gate.new).policy ≡ (G.state gate.old).policy }
    ensures records { OnOk result ((G.state gate.new).records ≡ settled_where
        at_rest (G.state gate.old).policy (G.state gate.old).records moment) }
    ensures day_full { IfErr result (λ e. e ≡ faults.DayFull → day_limit ≤ length
        (settled_where at_rest (G.state gate.old).policy (G.state gate.old).records moment)) }
{
    if !at_rest {
        return Ok(());
    }
    settle(gate, moment)
}

/// Makes matching steps at this moment until no order waits.
fn settle<G: AccessGate>(gate: &mut G, moment: Moment) -> Result<(), StepFault>
    ensures policy { (G.state gate.new).policy ≡ (G.state gate.old).policy }
    ensures records { OnOk result ((G.state gate.new).records
        ≡ settled_records (G.state gate.old).policy (G.state gate.old).records moment) }
    ensures day_full { IfErr result (λ e. e ≡ faults.DayFull → day_limit
        ≤ length (settled_records (G.state gate.old).policy (G.state gate.old).records moment)) }
{
    loop {
        match gate.match_one(moment) {
            Ok(Some(_)) => {}
            Ok(None) => return Ok(()),
            Err(fault) => return Err(fault),
        }
    }
}

/// The verdict, if there is one, with each order by its number in the day.
pub(crate) fn told_in_day(sources: &[u64], told: Option<Verdict>) -> Option<Verdict>
    ensures { result ≡ option_map (in_day sources.now) told }
{
    match told {
        Some(verdict) => Some(in_day(sources, verdict)),
        None => None,
    }
}

/// Puts this number last so many times.
pub(crate) fn add_more(sources: &mut Vec<u64>, count: u64, number: u64) -> Result<(), OutOfMemory>
    ensures { OnOk result (sources.new.items ≡ with_more count number sources.old.items) }
{
    let mut left = count;
    while left > 0 {
        sources.push(number)?;
        left -= 1;
    }
    Ok(())
}
