//! The steps of a legal day, made again on another gate.

ghost use Rattle.std.specs.Prelude.{◌≡◌, ◌++◌, ◌∷◌, [], IsTrue, OnErr, OnOk};
ghost use mathlib.Core.List.{IsPrefix};
ghost use Rattle.gx_history.specs.declared.record.Step.TheVariants as steps;
ghost use Rattle.gx_history.specs.{Showing.is_askable, Verdicts.{Follows, IsLegal}};

use gx_access_gate::{AccessGate, StepFault};
use gx_history::record::{Asked, Record, RecordData, Step};
use gx_units::{Moment, OutOfMemory};

/// Makes the step of the request whose record comes next in a legal day.
#[tactic(auto, using(crate::proofs::Records_repeated::asked_again))]
fn repeat_request<G: AccessGate>(
    gate: &mut G,
    left: &RecordData,
    asked: Asked,
) -> Result<(), OutOfMemory>
    requires askable { IsTrue (is_askable asked) }
    requires step { left.now.step ≡ steps.Asked asked }
    requires follows { Follows
        (G.state gate.old).policy ((G.state gate.old).records, left.now) }
    ensures policy { (G.state gate.new).policy ≡ (G.state gate.old).policy }
    ensures last { OnOk result
        ((G.state gate.new).records ≡ (G.state gate.old).records ++ left.now ∷ []) }
    ensures unchanged { OnErr result (G.state gate.new ≡ G.state gate.old) }
{
    match gate.step(asked) {
        Ok(_) => Ok(()),
        Err(StepFault::OutOfMemory) => Err(OutOfMemory),
        Err(StepFault::DayFull) => unreachable!(),
    }
}

/// Makes the matching step whose record comes next in a legal day.
#[tactic(auto, using(crate::proofs::Records_repeated::matched_again, gx_audit::proofs::FullDay_bounds::none_matched))]
fn repeat_match<G: AccessGate>(
    gate: &mut G,
    left: &RecordData,
    handed: Moment,
) -> Result<(), OutOfMemory>
    requires step { left.now.step ≡ steps.Matching handed }
    requires follows { Follows
        (G.state gate.old).policy ((G.state gate.old).records, left.now) }
    ensures policy { (G.state gate.new).policy ≡ (G.state gate.old).policy }
    ensures last { OnOk result
        ((G.state gate.new).records ≡ (G.state gate.old).records ++ left.now ∷ []) }
    ensures unchanged { OnErr result (G.state gate.new ≡ G.state gate.old) }
{
    match gate.match_one(handed) {
        Ok(_) => Ok(()),
        Err(StepFault::OutOfMemory) => Err(OutOfMemory),
        Err(StepFault::DayFull) => unreachable!(),
    }
}

/// Makes the step of the record that comes next in a legal day: the gate has that record last then.
///
/// # Errors
///
/// `OutOfMemory` where the record was refused its memory; then nothing has changed.
fn repeat<G: AccessGate>(gate: &mut G, left: &Record) -> Result<(), OutOfMemory>
    requires follows { Follows
        (G.state gate.old).policy ((G.state gate.old).records, left.now) }
    ensures policy { (G.state gate.new).policy ≡ (G.state gate.old).policy }
    ensures last { OnOk result
        ((G.state gate.new).records ≡ (G.state gate.old).records ++ left.now ∷ []) }
    ensures unchanged { OnErr result (G.state gate.new ≡ G.state gate.old) }
{
    let left = left.content();
    match left.step {
        Step::Asked(asked) => repeat_request(gate, &left, asked),
        Step::Matching(handed) => repeat_match(gate, &left, handed),
    }
}

/// Makes the steps of the records that come next in a legal day, one after the other.
///
/// # Errors
///
/// `OutOfMemory` where a record was refused its memory; then the steps before it were made.
pub(crate) fn repeat_all<G: AccessGate>(gate: &mut G, records: &[Record]) -> Result<(), OutOfMemory>
    requires legal { IsLegal
        (G.state gate.old).policy ((G.state gate.old).records ++ records.now) }
    ensures policy { (G.state gate.new).policy ≡ (G.state gate.old).policy }
    ensures all { OnOk result
        ((G.state gate.new).records ≡ (G.state gate.old).records ++ records.now) }
    ensures begins { IsPrefix (G.state gate.old).records (G.state gate.new).records }
    ensures front { IsPrefix
        (G.state gate.new).records ((G.state gate.old).records ++ records.now) }
{
    for left in records {
        repeat(gate, left)?;
    }
    Ok(())
}
