//! The memory of a journal.

use gx_history::record::Record;
use gx_units::OutOfMemory;
use std::alloc::Global;
use std::marker::Model;

/// How many records are put on the device at once, at most.
pub(crate) const PIECE: u64 = 4_096;

/// How many bytes these have: 128 each.
const PIECE_BYTES: usize = 524_288;

/// Room for as many records as a journal puts on its device at once, and for their bytes: all the memory that it takes, so
/// that none of its writes is refused for want of it.
#[derive(Drop)]
pub struct JournalRoom {
    pub(crate) records: Vec<Record>,
    pub(crate) bytes: Vec<u8>,
}

impl Model for JournalRoom {
    ghost use Rattle.std.specs.Prelude.{◌*◌, ◌≤◌, vec_capacity, ⊤};
    ghost use Rattle.gx_journal.specs.Journals.{most_at_once};

    ghost Value = { ⊤ };

    ghost view = { λ _. tt };

    ghost invariant = { λ r. (most_at_once ≤ vec_capacity r.records)
        × (128 * most_at_once ≤ vec_capacity r.bytes) };
}

impl JournalRoom {
    /// Room for one journal.
    ///
    /// # Errors
    ///
    /// `OutOfMemory` where memory was refused.
    pub fn new(alloc: Global) -> Result<JournalRoom, OutOfMemory> {
        let records = Vec::with_capacity(alloc, PIECE as usize)?;
        let bytes = Vec::with_capacity(alloc, PIECE_BYTES)?;
        Ok(JournalRoom { records, bytes })
    }
}
