//! What is long in a user's entries.

ghost use Rattle.std.specs.Prelude.{◌≡◌, ◌+◌, ◌<◌, ◌≤◌, Some, IfOk, IsOk, OnErr, OnOk, vec_capacity, vec_len};
ghost use Rattle.gx_streams.specs.{declared.stored_report.StoredReport.{StoredReport}, Recorded.reference_in, Slots.{IsSlotThere, Widens, canceled_report, entries_in, entry_in, no_details}};

use crate::entries::{Entries, SlotLists};
use crate::fill::FillRole;
use crate::slot::{AcceptedAt, CanceledAt, Slot};
use crate::stored_report::StoredReport;
use gx_history::report::{Message, Report};
use gx_ouch::Outbound;
use gx_units::OutOfMemory;
use std::alloc::Global;
use std::marker::Model;

/// What is long in a user's entries, each kind in their order, and places reserved for more.
#[derive(Drop)]
pub(crate) struct ReportDetails {
    canceled: Vec<CanceledAt>,
    others: Vec<Report>,
    reserved: usize,
}

impl Model for ReportDetails {
    ghost use Rattle.std.specs.Prelude.{◌+◌, ◌≤◌, vec_len, vec_capacity};
    ghost use Rattle.gx_streams.specs.Slots.{KeptDetails};

    ghost Value = { KeptDetails };

    ghost view = { λ l. record { lists = record { canceled = l.canceled.items; others = l.others.items }; reserved = l.reserved } };

    ghost invariant = { λ l. (vec_len l.canceled + l.reserved ≤ vec_capacity l.canceled)
        × (vec_len l.others + l.reserved ≤ vec_capacity l.others) };
}

/// Makes room for so many more items in a list without it: it becomes four times as long, so that its items are moved
/// less often; where so much is refused, no more is taken than is asked for.
#[inline(never)]
fn grow<T>(items: &mut Vec<T>, more: usize) -> Result<(), OutOfMemory>
    ensures items { items.new.items ≡ items.old.items }
    ensures len { vec_len items.new ≡ vec_len items.old }
    ensures capacity { vec_capacity items.old ≤ vec_capacity items.new }
    ensures ok { OnOk result (vec_len items.new + more ≤ vec_capacity items.new) }
    ensures enough { vec_len items.old + more ≤ vec_capacity items.old → IsOk result }
{
    let far = items.capacity().saturating_mul(3).max(more);
    if items.reserve(far).is_ok() {
        return Ok(());
    }
    items.reserve(more)?;
    Ok(())
}

/// Makes room for so many more items.
#[inline(always)]
pub(crate) fn make_room<T>(items: &mut Vec<T>, more: usize) -> Result<(), OutOfMemory>
    ensures items { items.new.items ≡ items.old.items }
    ensures len { vec_len items.new ≡ vec_len items.old }
    ensures capacity { vec_capacity items.old ≤ vec_capacity items.new }
    ensures ok { OnOk result (vec_len items.new + more ≤ vec_capacity items.new) }
    ensures enough { vec_len items.old + more ≤ vec_capacity items.old → IsOk result }
{
    if more <= items.capacity() - items.len() {
        return Ok(());
    }
    grow(items, more)
}

impl ReportDetails {
    /// None, and no place reserved, with room for those of so many entries.
    pub(crate) fn new(alloc: Global, room: usize) -> Result<ReportDetails, OutOfMemory>
        ensures lists { IfOk result (λ details. details.lists ≡ no_details) }
        ensures reserved { IfOk result (λ details. details.reserved ≡ 0) }
    {
        Ok(ReportDetails {
            canceled: Vec::with_capacity(alloc, room)?,
            others: Vec::with_capacity(alloc, room)?,
            reserved: 0,
        })
    }

    /// The entries that `put` has places for.
    #[inline(always)]
    pub(crate) fn reserved(&self) -> usize
        ensures { result ≡ self.now.reserved }
    {
        self.reserved
    }

    /// Reserves places for those of so many entries.
    #[inline(always)]
    pub(crate) fn reserve(&mut self, places: usize) -> Result<(), OutOfMemory>
        requires { self.old.reserved ≤ places }
        ensures ok { OnOk result (self.new ≡ record self.old { reserved = places }) }
        ensures err { OnErr result (self.new ≡ self.old) }
    {
        make_room(&mut self.canceled, places)?;
        make_room(&mut self.others, places)?;
        self.reserved = places;
        Ok(())
    }

    /// Notes the Accepted of the order of this number.
    #[inline(always)]
    fn put_accepted(&mut self, report: &Report, number: u64) -> Slot
        requires room { 0 < self.old.reserved }
        requires accepted { reference_in report.now ≡ Some number }
        ensures kept { Widens self.old.lists self.new.lists }
        ensures reserved { self.new.reserved + 1 ≡ self.old.reserved }
        ensures entry { entry_in self.new.lists result ≡ StoredReport.Typed report.now }
        ensures there { IsSlotThere self.new.lists result }
    {
        self.reserved -= 1;
        Slot::Accepted(AcceptedAt::of(report, number))
    }

    /// Puts the Canceled with this timestamp last.
    #[inline(always)]
    fn put_canceled(&mut self, canceled: CanceledAt) -> Slot
        requires room { 0 < self.old.reserved }
        ensures kept { Widens self.old.lists self.new.lists }
        ensures reserved { self.new.reserved + 1 ≡ self.old.reserved }
        ensures entry { entry_in self.new.lists result
            ≡ StoredReport.Typed (canceled_report canceled) }
        ensures there { IsSlotThere self.new.lists result }
    {
        self.reserved -= 1;
        let place = self.canceled.len();
        self.canceled.push_reserved(canceled);
        Slot::Canceled(place)
    }

    /// Puts a report of another kind last.
    #[inline(always)]
    fn put_other(&mut self, report: Report) -> Slot
        requires room { 0 < self.old.reserved }
        ensures kept { Widens self.old.lists self.new.lists }
        ensures reserved { self.new.reserved + 1 ≡ self.old.reserved }
        ensures entry { entry_in self.new.lists result ≡ StoredReport.Typed report }
        ensures there { IsSlotThere self.new.lists result }
    {
        self.reserved -= 1;
        let place = self.others.len();
        self.others.push_reserved(report);
        Slot::Other(place)
    }

    /// Names the side of a fill, which lies elsewhere.
    #[inline(always)]
    fn put_side(&mut self, place: usize, party: FillRole) -> Slot
        requires room { 0 < self.old.reserved }
        ensures kept { Widens self.old.lists self.new.lists }
        ensures reserved { self.new.reserved + 1 ≡ self.old.reserved }
        ensures entry { entry_in self.new.lists result ≡ StoredReport.Filled place party }
        ensures there { IsSlotThere self.new.lists result }
    {
        self.reserved -= 1;
        match party {
            FillRole::Taker => Slot::Taker(place),
            FillRole::Maker => Slot::Maker(place),
        }
    }

    /// Puts the report last in the list of its kind.
    #[inline(always)]
    fn put_report(&mut self, report: Report) -> Slot
        requires room { 0 < self.old.reserved }
        ensures kept { Widens self.old.lists self.new.lists }
        ensures reserved { self.new.reserved + 1 ≡ self.old.reserved }
        ensures entry { entry_in self.new.lists result ≡ StoredReport.Typed report }
        ensures there { IsSlotThere self.new.lists result }
    {
        match &report.message {
            Message::Order(Outbound::Accepted(accepted)) => {
                self.put_accepted(&report, accepted.order_reference)
            }
            Message::Order(Outbound::Canceled(canceled)) => self.put_canceled(CanceledAt {
                moment: report.timestamp,
                canceled: *canceled,
            }),
            _ => self.put_other(report),
        }
    }

    /// Puts what is long in the entry last, and names it by its place. What was there is named as before.
    #[inline(always)]
    pub(crate) fn put(&mut self, entry: StoredReport) -> Slot
        requires room { 0 < self.old.reserved }
        ensures kept { Widens self.old.lists self.new.lists }
        ensures reserved { self.new.reserved + 1 ≡ self.old.reserved }
        ensures entry { entry_in self.new.lists result ≡ entry }
        ensures there { IsSlotThere self.new.lists result }
    {
        match entry {
            StoredReport::Typed(report) => self.put_report(report),
            StoredReport::Filled(place, party) => self.put_side(place, party),
        }
    }

    /// The entries of these slots.
    #[inline(always)]
    pub(crate) fn entries<'a>(&'a self, slots: &'a [Slot]) -> Entries<'a>
        ensures { result ≡ entries_in self.now.lists slots.now }
    {
        let lists = SlotLists {
            canceled: self.canceled.as_slice(),
            others: self.others.as_slice(),
        };
        Entries { lists, slots }
    }
}
