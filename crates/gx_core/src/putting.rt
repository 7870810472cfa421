//! A part of a user's stream, in room that the caller keeps.

ghost use Rattle.std.specs.{Prelude.{◌≡◌, ◌+◌, length, max, IfOk, OnOk}, List.AllByRecursion};
ghost use Rattle.gx_policy.specs.Lists.{slice};
ghost use Rattle.gx_streams.specs.Recorded.{IsRecorded};
ghost use Rattle.gx_core.specs.Kept.{is_past_the_end, reports_kept_for};

use gx_access_gate::Reached;
use gx_gate_state::GateState;
use gx_history::records::Records;
use gx_history::report::Report;
use gx_units::{Firm, OutOfMemory, UserName};

/// Puts the user's reports from this number on, 0 counting as 1, and at most so many, into this list, in place of what
/// stands there. He is looked for at this place of the policy's users first; this is the firm of the account that he trades
/// for, and each Accepted is told by these records.
///
/// # Errors
///
/// `OutOfMemory` where memory was refused.
pub(crate) fn put_pull(
    state: &GateState,
    records: &Records<'_>,
    house: Option<Firm>,
    user: UserName,
    near: usize,
    from: u64,
    most: u64,
    list: &mut Vec<Report>,
) -> Result<Reached, OutOfMemory>
    requires recorded { AllByRecursion (IsRecorded house records.now)
        (slice (reports_kept_for state.now user) from most) }
    ensures reports { OnOk result
        (list.new.items ≡ slice (reports_kept_for state.now user) from most) }
    ensures next { IfOk result (λ r. r.next ≡ max 1 from + length list.new.items) }
    ensures ended { IfOk result (λ r. r.ended ≡ is_past_the_end state.now user r.next) }
{
    let owed = state
        .streams
        .put_slice(records, house, user, near, from, most, list)?;
    let next = from.max(1) + list.len() as u64;
    let ended = state.status.is_closed() && (owed.count as u64) < next;
    Ok(Reached {
        next,
        ended,
        place: owed.place,
    })
}
