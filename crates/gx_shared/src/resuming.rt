//! The keeper of a history that was there before it.

ghost use Rattle.std.specs.Prelude.{◌≡◌, ◌+◌, ◌<◌, ◌^◌, ◌++◌, ◌∷◌, [], length, max, IfOk, OnOk};
ghost use Rattle.gx_pass.specs.Views.{highest_line};
ghost use Rattle.gx_shared.specs.Lines.{lines_to, IsResuming};

use gx_access_gate::AccessGate;
use gx_history::record::{Record, RecordData};
use gx_pass::{Blank, GateName, Keeper, PassFault, line_in};
use gx_units::OutOfMemory;

/// So many records are asked for at once.
const PORTION: u64 = 256;

/// Issues one more line, whose pass stays entered.
#[tactic(auto, using(crate::proofs::Lines_noted::one_more_line))]
fn hold_one<N: GateName>(keeper: &mut Keeper<N>) -> Result<(), OutOfMemory>
    requires entered { keeper.old.entered ≡ lines_to keeper.old.issued }
    requires left { keeper.old.issued < 65535 }
    ensures list { keeper.new.list ≡ keeper.old.list }
    ensures entered { keeper.new.entered ≡ lines_to keeper.new.issued }
    ensures issued { OnOk result (keeper.new.issued ≡ keeper.old.issued + 1) }
{
    match keeper.issue() {
        Ok(pass) => {
            keeper.enter(pass);
            Ok(())
        }
        Err(PassFault::OutOfMemory) => Err(OutOfMemory),
        Err(PassFault::NoLines) => unreachable!(),
    }
}

/// Issues the lines up to this one, whose passes stay entered.
fn hold_up_to<N: GateName>(keeper: &mut Keeper<N>, line: u16) -> Result<(), OutOfMemory>
    requires entered { keeper.old.entered ≡ lines_to keeper.old.issued }
    ensures list { keeper.new.list ≡ keeper.old.list }
    ensures entered { keeper.new.entered ≡ lines_to keeper.new.issued }
    ensures issued { OnOk result (keeper.new.issued ≡ max keeper.old.issued line) }
{
    while keeper.issued() < line {
        hold_one(keeper)?;
    }
    Ok(())
}

/// Notes a record that was there before.
#[tactic(auto, using(crate::proofs::Lines_noted::may_note, gx_pass::proofs::HighestLine_next::highest_more))]
fn note_one<N: GateName>(keeper: &mut Keeper<N>, earlier: RecordData) -> Result<(), OutOfMemory>
    requires stands { IsResuming keeper.old }
    requires room { length keeper.old.list + 1 < 2 ^ 64 }
    ensures list { OnOk result (keeper.new.list ≡ keeper.old.list ++ earlier ∷ []) }
    ensures stands { OnOk result (IsResuming keeper.new) }
{
    hold_up_to(keeper, line_in(&earlier))?;
    keeper.note(earlier);
    Ok(())
}

/// Notes records that were there before, in their order.
fn note_portion<N: GateName>(keeper: &mut Keeper<N>, records: &[Record]) -> Result<(), OutOfMemory>
    requires stands { IsResuming keeper.old }
    requires room { length keeper.old.list + length records.now < 2 ^ 64 }
    ensures list { OnOk result (keeper.new.list ≡ keeper.old.list ++ records.now) }
    ensures stands { OnOk result (IsResuming keeper.new) }
{
    for earlier in records {
        note_one(keeper, earlier.content())?;
    }
    Ok(())
}

/// Notes all records of the gate, in their order.
fn note_all<G: AccessGate, N: GateName>(keeper: &mut Keeper<N>, gate: &G) -> Result<(), OutOfMemory>
    requires new { keeper.old.list ≡ [] }
    requires stands { IsResuming keeper.old }
    ensures list { OnOk result (keeper.new.list ≡ (G.state gate.now).records) }
    ensures stands { OnOk result (IsResuming keeper.new) }
{
    let length = gate.length();
    let mut done = 0;
    while done < length {
        let portion = gate.records(done + 1, PORTION)?;
        note_portion(keeper, portion.as_slice())?;
        done += PORTION;
    }
    Ok(())
}

/// The keeper of the gate's records. Their lines stay entered for good.
///
/// # Errors
///
/// `OutOfMemory` where memory was refused.
#[tactic(auto, using(crate::proofs::Lines_noted::begins))]
pub fn resume<G: AccessGate, N: GateName>(gate: &G, blank: Blank) -> Result<Keeper<N>, OutOfMemory>
    requires { blank ≡ N.table }
    ensures keeper { IfOk result (λ k. k.list ≡ (G.state gate.now).records) }
    ensures issued { IfOk result (λ k. k.issued ≡ highest_line (G.state gate.now).records) }
{
    let mut keeper = Keeper::open(blank);
    note_all(&mut keeper, gate)?;
    Ok(keeper)
}
