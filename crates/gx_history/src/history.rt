//! The records of a day.

ghost use Rattle.std.specs.Prelude.{◌≡◌, ◌+◌, ◌<◌, ◌≤◌, ◌^◌, ◌++◌, [], ◌∷◌, length, IsOk, OnOk, OnErr};

use crate::record::Record;
use crate::records::Records;
use crate::rows::{Details, RecordRow};
use gx_units::OutOfMemory;
use std::alloc::Global;
use std::marker::Model;

/// The records of a day so far, the oldest first, and places reserved for more.
#[derive(Drop)]
pub struct History {
    rows: Vec<RecordRow>,
    details: Details,
}

impl Model for History {
    ghost use Rattle.std.specs.Prelude.{◌+◌, ◌≤◌, vec_len, vec_capacity};
    ghost use Rattle.gx_history.specs.{Kept.{Kept}, Rows.{AreKept, records_in}};

    ghost Value = { Kept };

    ghost view = { λ h. record { records = records_in h.details.lists h.rows.items; reserved = h.details.reserved } };

    ghost invariant = { λ h. AreKept h.details h.rows.items (vec_len h.rows) (vec_capacity h.rows) };
}

impl History {
    /// A history without records, and with no place reserved. Takes no memory.
    pub fn new(alloc: Global) -> History
        ensures records { result.records ≡ [] }
        ensures reserved { result.reserved ≡ 0 }
    {
        History {
            rows: Vec::new(alloc),
            details: Details::new(alloc),
        }
    }

    /// Reserves places for so many.
    #[inline(never)]
    fn reserve_exactly(&mut self, places: usize) -> Result<(), OutOfMemory>
        requires { self.old.reserved ≤ places }
        ensures records { self.new.records ≡ self.old.records }
        ensures ok { OnOk result (self.new.reserved ≡ places) }
        ensures err { OnErr result (self.new ≡ self.old) }
    {
        self.rows.reserve(places)?;
        self.details.reserve(places)
    }

    /// Puts the record last, in a place of its own: those that are reserved stay so.
    ///
    /// `OutOfMemory`: a list could not grow, and nothing has changed.
    pub fn push(&mut self, added: Record) -> Result<(), OutOfMemory>
        ensures ok { OnOk result (self.new.records ≡ self.old.records ++ added ∷ []) }
        ensures reserved { self.new.reserved ≡ self.old.reserved }
        ensures err { OnErr result (self.new ≡ self.old) }
    {
        let reserved = self.details.reserved();
        self.reserve_exactly(reserved + 1)?;
        self.push_reserved(added);
        Ok(())
    }

    /// Reserves at least so many places for `push_reserved`. Places that are reserved already count. As many more are reserved
    /// as there are records, so that these are moved seldom; where so much is refused, no more than is asked for.
    ///
    /// `OutOfMemory`: a list could not grow, and nothing has changed.
    #[inline(always)]
    pub fn reserve(&mut self, places: usize) -> Result<(), OutOfMemory>
        ensures records { self.new.records ≡ self.old.records }
        ensures ok { OnOk result (places ≤ self.new.reserved) }
        ensures kept { self.old.reserved ≤ self.new.reserved }
        ensures enough { places ≤ self.old.reserved → IsOk result }
        ensures err { OnErr result (self.new ≡ self.old) }
    {
        if places <= self.details.reserved() {
            return Ok(());
        }
        let count = self.rows.len();
        if self.reserve_exactly(places.max(count)).is_ok() {
            return Ok(());
        }
        self.reserve_exactly(places)
    }

    /// Puts the record last, in a reserved place. Takes no memory.
    #[inline(always)]
    pub fn push_reserved(&mut self, added: Record)
        requires { 0 < self.old.reserved }
        ensures records { self.new.records ≡ self.old.records ++ added ∷ [] }
        ensures reserved { self.new.reserved + 1 ≡ self.old.reserved }
    {
        let left = added.as_content();
        let event = self.details.put(&left.step, &left.verdict);
        self.rows.push_reserved(RecordRow {
            number: left.number,
            moment: left.moment,
            event,
        });
    }

    /// How many records there are.
    #[tactic(auto, using(crate::proofs::Rows_table::records_length))]
    pub fn len(&self) -> usize
        ensures count { result ≡ length self.now.records }
        ensures few { result < 2 ^ 63 }
    {
        self.rows.as_slice().len()
    }

    /// The records, the oldest first.
    pub fn records(&self) -> Records<'_>
        ensures { result ≡ self.now.records }
    {
        Records::new(&self.details, self.rows.as_slice())
    }

    /// Lets it go. Its drop is proved here once, and not in each crate that owns one.
    pub fn release(self) {}
}
