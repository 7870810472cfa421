//! Whether an order waits.

ghost use Rattle.std.specs.{Prelude.{◌≡◌, ◌++◌, ◌∷◌, [], IfOk, OnOk}, List.filter};
ghost use Rattle.gx_records.specs.Watching.{earlier_of};
ghost use Rattle.gx_whatif.specs.{Following.{AreAllOf, waits_numbered}, Redone.is_at_rest};
ghost use Rattle.gx_history.specs.Live.{live};

use gx_history::record::RecordData;
use gx_records::ShowsState;
use gx_units::OutOfMemory;

/// Whether the live order of this number waits.
fn waits<G: ShowsState>(gate: &G, number: u64) -> bool
    ensures { result ≡ waits_numbered
        (live (G.state gate.now).policy (G.state gate.now).records) number }
{
    match gate.live_order(number) {
        Some(order) => order.waits,
        None => false,
    }
}

/// Takes out the numbers of orders that don't wait.
fn sweep<G: ShowsState>(numbers: &mut Vec<u64>, gate: &G)
    ensures { numbers.new.items ≡ filter
        (waits_numbered (live (G.state gate.now).policy (G.state gate.now).records))
        numbers.old.items }
{
    numbers.retain(|number| waits(gate, *number));
}

/// Notes the gate's last record, of which an order may wait. Answers whether none waits now.
///
/// These are numbers of orders, all those that waited in front of it among them, and all those that wait behind it then.
pub(crate) fn note_waiting<G: ShowsState>(
    numbers: &mut Vec<u64>,
    gate: &G,
    left: &RecordData,
) -> Result<bool, OutOfMemory>
    requires last { (G.state gate.now).records
        ≡ earlier_of (G.state gate.now).records ++ left.now ∷ [] }
    requires all { AreAllOf (G.state gate.now).policy
        (earlier_of (G.state gate.now).records) numbers.old.items }
    ensures all { OnOk result (AreAllOf (G.state gate.now).policy
        (G.state gate.now).records numbers.new.items) }
    ensures at_rest { IfOk result (λ rests. rests
        ≡ is_at_rest (G.state gate.now).policy (G.state gate.now).records) }
{
    // that the records are those of a legal day
    gate.is_legal();
    numbers.push(left.number)?;
    sweep(numbers, gate);
    Ok(numbers.as_slice().is_empty())
}
