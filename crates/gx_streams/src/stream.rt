//! What is kept of one user's reports.

ghost use Rattle.std.specs.Prelude.{◌≡◌, ◌≤◌, ◌<◌, IfOk, IsOk, OnOk, OnErr};
ghost use Rattle.gx_streams.specs.Kept.{empty_list, with_reserved_last, with_last, with_reserved, without_last};

use crate::details::{ReportDetails, make_room};
use crate::entries::Entries;
use crate::slot::Slot;
use crate::stored_report::StoredReport;
use gx_units::OutOfMemory;
use std::alloc::Global;
use std::marker::Model;

/// The reports to one user, in order, and places reserved for more.
#[derive(Drop)]
pub(crate) struct Stream {
    slots: Vec<Slot>,
    details: ReportDetails,
}

impl Model for Stream {
    ghost use Rattle.std.specs.Prelude.{vec_len, vec_capacity};
    ghost use Rattle.gx_streams.specs.{Kept.{ReservedList}, Slots.{AreSlotsKept, entries_in}, declared.stored_report.StoredReport.{StoredReport}};

    ghost Value = { ReservedList StoredReport };

    ghost view = { λ s. record { items = entries_in s.details.lists s.slots.items; reserved = s.details.reserved } };

    ghost invariant = { λ s. AreSlotsKept s.details s.slots.items (vec_len s.slots) (vec_capacity s.slots) };
}

impl Stream {
    /// Nothing, and no place reserved, with room for so many entries.
    pub(crate) fn new(alloc: Global, room: usize) -> Result<Stream, OutOfMemory>
        ensures { IfOk result (λ stream. stream ≡ empty_list) }
    {
        Ok(Stream {
            slots: Vec::with_capacity(alloc, room)?,
            details: ReportDetails::new(alloc, room)?,
        })
    }

    /// Reserves so many places.
    fn reserve_exactly(&mut self, places: usize) -> Result<(), OutOfMemory>
        requires { self.old.reserved ≤ places }
        ensures ok { OnOk result (self.new ≡ record self.old { reserved = places }) }
        ensures err { OnErr result (self.new ≡ self.old) }
    {
        make_room(&mut self.slots, places)?;
        self.details.reserve(places)
    }

    /// Puts the entry last, in a place of its own: those that are reserved stay so.
    #[inline(always)]
    pub(crate) fn push(&mut self, entry: StoredReport) -> Result<(), OutOfMemory>
        ensures ok { OnOk result (self.new ≡ with_last entry self.old) }
        ensures err { OnErr result (self.new ≡ self.old) }
    {
        let reserved = self.details.reserved();
        self.reserve_exactly(reserved + 1)?;
        self.push_reserved(entry);
        Ok(())
    }

    /// Reserves at least so many places for `push_reserved`.
    #[inline(always)]
    pub(crate) fn reserve(&mut self, places: usize) -> Result<(), OutOfMemory>
        ensures ok { OnOk result (self.new ≡ with_reserved places self.old) }
        ensures enough { places ≤ self.old.reserved → IsOk result }
        ensures err { OnErr result (self.new ≡ self.old) }
    {
        if self.details.reserved() < places {
            self.reserve_exactly(places)?;
        }
        Ok(())
    }

    /// Puts the entry last, in a reserved place. Takes no memory.
    #[inline(always)]
    pub(crate) fn push_reserved(&mut self, entry: StoredReport)
        requires { 0 < self.old.reserved }
        ensures { self.new ≡ with_reserved_last entry self.old }
    {
        let slot = self.details.put(entry);
        self.slots.push_reserved(slot);
    }

    /// Takes the last entry back.
    pub(crate) fn take_back(&mut self)
        ensures { self.new ≡ without_last self.old }
    {
        let count = self.slots.as_slice().len();
        self.slots.truncate(count.saturating_sub(1));
    }

    /// The entries, in order.
    pub(crate) fn entries(&self) -> Entries<'_>
        ensures { result ≡ self.now.items }
    {
        self.details.entries(self.slots.as_slice())
    }
}
