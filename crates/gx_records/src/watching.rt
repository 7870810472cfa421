//! Who looks on while the records of a day are made again.

ghost use Rattle.std.specs.Prelude.{◌≡◌, ◌++◌, [], ◌∷◌, OnOk};
ghost use Rattle.gx_records.specs.Watching.{earlier_of};

use gx_access_gate::AccessGate;
use gx_history::record::RecordData;
use gx_units::OutOfMemory;

/// Looks on while the records of a day are made again, one after the other: at the gate in front of each record, and at the
/// gate behind it. What it keeps is told by `saw`, a relation with the policy and the records so far; `asked` is what it was
/// asked for, which no record changes.
pub trait Watches<G: AccessGate> {
    ghost use Rattle.std.specs.Prelude.{List};
    ghost use Rattle.gx_policy.specs.declared.policy.PolicyData.{PolicyData};
    ghost use Rattle.gx_history.specs.declared.record.RecordData.{RecordData};

    // What it was asked for.
    ghost Asked: { Type 0 } = { Unit {0} };

    ghost asked: { Self → Self.Asked };

    // It has looked on at all of these records.
    ghost saw: { Self → PolicyData → List RecordData → Type 0 };

    // It has looked on at all of these records, and at the gate in front of this one.
    ghost expects: { Self → PolicyData → List RecordData → RecordData → Type 0 };

    /// Looks at the gate in front of the record that comes next.
    ///
    /// # Errors
    ///
    /// `OutOfMemory` where what is to be kept was refused its memory.
    fn before(&mut self, gate: &G, next: &RecordData) -> Result<(), OutOfMemory>
        requires saw { saw self.old (G.state gate.now).policy (G.state gate.now).records }
        ensures expects { OnOk result
            (expects self.new (G.state gate.now).policy (G.state gate.now).records next.now) }
        ensures asked { asked self.new ≡ asked self.old };

    /// Looks at the gate behind that record, its last.
    ///
    /// # Errors
    ///
    /// `OutOfMemory` where what is to be kept was refused its memory.
    fn after(&mut self, gate: &G, left: &RecordData) -> Result<(), OutOfMemory>
        requires last { (G.state gate.now).records
            ≡ earlier_of (G.state gate.now).records ++ left.now ∷ [] }
        requires expects { expects self.old (G.state gate.now).policy
            (earlier_of (G.state gate.now).records) left.now }
        ensures saw { OnOk result
            (saw self.new (G.state gate.now).policy (G.state gate.now).records) }
        ensures asked { asked self.new ≡ asked self.old };
}

/// Looks at nothing.
#[derive(Clone, Copy)]
pub struct NoWatch;

impl<G: AccessGate> Watches<G> for NoWatch {
    ghost asked = { λ _. tt };

    ghost saw = { λ _ _ _. Unit {0} };

    ghost expects = { λ _ _ _ _. Unit {0} };

    fn before(&mut self, _gate: &G, _next: &RecordData) -> Result<(), OutOfMemory> {
        Ok(())
    }

    fn after(&mut self, _gate: &G, _left: &RecordData) -> Result<(), OutOfMemory> {
        Ok(())
    }
}
