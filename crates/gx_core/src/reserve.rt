//! The places of records.

ghost use Rattle.std.specs.Prelude.{◌≡◌, ◌+◌, ◌-◌, ◌<◌, ◌≤◌, ◌^◌, [], length, IfErr, IfOk, IsFalse, IsOk, IsTrue, OnOk};
ghost use Rattle.gx_access_gate.specs.declared.outcome.StepFault.TheVariants as faults;
ghost use Rattle.gx_history.specs.{Verdicts.day_limit, Reserved.{is_never_refused, most_reserved_records}};

use gx_access_gate::StepFault;
use gx_decide::is_full;
use gx_history::History;
use gx_history::record::{Asked, Verdict};
use gx_history::reserved::is_never_refused;
use gx_policy::Policy;
use gx_units::OutOfMemory;
use std::alloc::Global;

/// So many records have room from the first on: a list that grows moves all that it holds.
const FIRST_RECORDS: usize = 16_384;

/// The most places that are ever kept for the records of Kills and Logouts: one for each account, and one for each user.
fn most_reserved_records(policy: &Policy) -> usize
    ensures most { result ≡ most_reserved_records policy.now }
    ensures few { result < 2 ^ 64 - 1 }
{
    policy.accounts().len() + policy.users().len()
}

/// No record yet, and the reserved places at the beginning of a day: those of the first records among them.
pub(crate) fn first_history(alloc: Global, policy: &Policy) -> Result<History, OutOfMemory>
    ensures records { IfOk result (λ history. history.records ≡ []) }
    ensures enough { IfOk result (λ history.
        most_reserved_records policy.now ≤ history.reserved) }
{
    let mut history = History::new(alloc);
    history.reserve(most_reserved_records(policy).max(FIRST_RECORDS))?;
    Ok(history)
}

/// Makes a place for one more record, beside those that are reserved.
///
/// `DayFull` comes before `OutOfMemory`, and only where the day has as many records as it may have.
pub(crate) fn reserve_one(history: &mut History, policy: &Policy) -> Result<(), StepFault>
    ensures records { history.new.records ≡ history.old.records }
    ensures more { history.old.reserved ≤ history.new.reserved }
    ensures own { OnOk result (most_reserved_records policy.now + 1 ≤ history.new.reserved) }
    ensures room { OnOk result (length history.old.records < day_limit) }
    ensures full { day_limit ≤ length history.old.records → result ≡ Err faults.DayFull }
    ensures day_full { IfErr result (λ e. e ≡ faults.DayFull
        → day_limit ≤ length history.old.records) }
{
    if is_full(history.len()) {
        return Err(StepFault::DayFull);
    }
    history.reserve(most_reserved_records(policy) + 1)?;
    Ok(())
}

/// Makes a place for the record that a request of this verdict leaves. A granted Kill or Logout has one that was kept.
pub(crate) fn reserve_for(
    history: &mut History,
    policy: &Policy,
    a: &Asked,
    given: Verdict,
) -> Result<(), StepFault>
    ensures records { history.new.records ≡ history.old.records }
    ensures more { history.old.reserved ≤ history.new.reserved }
    ensures own { OnOk result (IsFalse (is_never_refused a.now.request given)
        → most_reserved_records policy.now + 1 ≤ history.new.reserved) }
    ensures room { OnOk result (IsFalse (is_never_refused a.now.request given)
        → length history.old.records < day_limit) }
    ensures sure { IsTrue (is_never_refused a.now.request given) → IsOk result }
    ensures full { day_limit ≤ length history.old.records
        → IsFalse (is_never_refused a.now.request given) → result ≡ Err faults.DayFull }
    ensures day_full { IfErr result (λ e. e ≡ faults.DayFull
        → day_limit ≤ length history.old.records) }
{
    if is_never_refused(&a.request, given) {
        return Ok(());
    }
    reserve_one(history, policy)
}
