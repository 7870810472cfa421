//! What a journal lacks of a day that has ended.

ghost use Rattle.std.specs.{Prelude.{◌≡◌, ◌+◌, ◌≤◌, drop, length, take, vec_capacity, None, IsTrue, IsFalse}, Io.KnownBytes.Appends};
ghost use Rattle.gx_journal.specs.Journals.{is_broken, journal_bytes, most_at_once};

use crate::copying::copy_slice;
use gx_history::record::Record;
use gx_journal::JournalWriter;
use gx_records::ShowsRecords;
use std::io::Write;

/// How many records are written at a time.
const PIECE: u64 = 256;

/// Puts the next records of the gate, so many at most, on the device, by way of this room. Takes no memory. Answers whether it
/// did.
fn put_piece<G: ShowsRecords, W: Write>(
    gate: &G,
    writer: &mut JournalWriter<W>,
    room: &mut Vec<Record>,
    most: u64,
) -> bool
    requires left { writer.old.done + most ≤ length (G.state gate.now).records }
    requires few { most ≤ most_at_once }
    requires room { most ≤ vec_capacity room.old }
    ensures whole { IsTrue result → Appends writer.old.contents writer.new.contents
        (journal_bytes writer.old.version
        (take most (drop writer.old.done (G.state gate.now).records))) }
    ensures done { IsTrue result → writer.new.done ≡ writer.old.done + most }
    ensures version { writer.new.version ≡ writer.old.version }
    ensures sound { IsTrue result → writer.new.fault ≡ None }
    ensures broken { IsFalse result → IsTrue (is_broken writer.new) }
    ensures room { vec_capacity room.new ≡ vec_capacity room.old }
{
    gate.length();
    copy_slice(gate, writer.done() + 1, most, room);
    writer.put(room.as_slice())
}

/// Puts all records of the gate on the device that are not there, by way of this room, unless it is broken. Takes no memory.
pub(crate) fn put_rest<G: ShowsRecords, W: Write>(
    gate: &G,
    writer: &mut JournalWriter<W>,
    room: &mut Vec<Record>,
)
    requires within { writer.old.done ≤ length (G.state gate.now).records }
    requires room { most_at_once ≤ vec_capacity room.old }
    ensures whole { writer.new.fault ≡ None → Appends writer.old.contents writer.new.contents
        (journal_bytes writer.old.version (drop writer.old.done (G.state gate.now).records)) }
    ensures sound { writer.new.fault ≡ None → writer.old.fault ≡ None }
{
    if writer.is_broken() {
        return;
    }
    let count = gate.length();
    while writer.done() < count {
        let most = PIECE.min(count - writer.done());
        if !put_piece(gate, writer, room, most) {
            return;
        }
    }
}
