//! Records, copied into room that is there.

ghost use Rattle.std.specs.Prelude.{◌≡◌, ◌+◌, ◌≤◌, ◌++◌, length, vec_capacity, vec_len};
ghost use Rattle.gx_policy.specs.Lists.{slice};

use gx_history::record::Record;
use gx_history::records::Records;
use gx_records::ShowsRecords;

/// Puts the records last in the list, where there is room for them all. Takes no memory.
#[tactic(auto, using(crate::proofs::Records_copied::all_copied))]
fn put_all(records: &Records<'_>, list: &mut Vec<Record>)
    requires room { vec_len list.old + length records.now ≤ vec_capacity list.old }
    ensures items { list.new.items ≡ list.old.items ++ records.now }
    ensures room { vec_capacity list.new ≡ vec_capacity list.old }
{
    for place in 0..records.len() {
        list.push_reserved(records.at(place));
    }
}

/// Copies the gate's records from this number on, 0 counting as 1, and at most so many, into this list, in place of what stands
/// there. Takes no memory.
pub(crate) fn copy_slice<G: ShowsRecords>(gate: &G, from: u64, most: u64, list: &mut Vec<Record>)
    requires room { most ≤ vec_capacity list.old }
    ensures records { list.new.items ≡ slice (G.state gate.now).records from most }
    ensures room { vec_capacity list.new ≡ vec_capacity list.old }
{
    list.clear();
    put_all(&gate.shown_records().slice(from, most), list);
}
