//! A user's entries, where they lie.

ghost use Rattle.std.specs.{Prelude.{◌≡◌, [], length, map, OnOk}, List.AllByRecursion};
ghost use Rattle.gx_policy.specs.Lists.{slice};
ghost use Rattle.gx_streams.specs.{declared.stored_report.StoredReport.{StoredReport}, Recorded.IsRecorded, Slots.{lists_of, report_in_slot}, Table.{no_report, report_stored}};

use crate::fill::{FillRole, ReportedFill};
use crate::recorded::Source;
use crate::slot::{CanceledAt, Slot};
use gx_history::report::{Message, Report};
use gx_history::slices::slice;
use gx_ouch::{EventCode, Outbound};
use gx_units::OutOfMemory;
use std::marker::Model;

/// The lists in which slots name places.
#[derive(Clone, Copy)]
pub(crate) struct SlotLists<'a> {
    pub(crate) canceled: &'a [CanceledAt],
    pub(crate) others: &'a [Report],
}

/// Some of a user's entries, one behind the other.
#[derive(Drop)]
pub(crate) struct Entries<'a> {
    pub(crate) lists: SlotLists<'a>,
    pub(crate) slots: &'a [Slot],
}

impl<'a> Model for Entries<'a> {
    ghost use Rattle.std.specs.Prelude.{List};
    ghost use Rattle.gx_streams.specs.{Slots.{entries_in, lists_of}, declared.stored_report.StoredReport.{StoredReport}};

    ghost Value = { List StoredReport };

    ghost view = { λ e. entries_in (lists_of e.lists) e.slots.now };
}

/// Stands for a report that is not there; no slot and no entry names such a one.
pub(crate) fn no_report() -> Report
    ensures { result ≡ no_report }
{
    Report {
        timestamp: 0,
        message: Message::Order(Outbound::SystemEvent(EventCode::EndOfDay)),
    }
}

/// Executed, to the user of this side of the fill at this place.
#[inline(always)]
fn executed(fills: &[ReportedFill], place: usize, party: FillRole) -> Report
    ensures { result ≡ report_stored fills.now (StoredReport.Filled place party) }
{
    match fills.get(place) {
        Some(fill) => fill.report(party),
        None => no_report(),
    }
}

/// The report of the slot's entry, which lies in one of these lists, is of one of these fills, or is told by the records.
#[inline(always)]
fn report_at(
    lists: &SlotLists<'_>,
    fills: &[ReportedFill],
    source: &Source<'_>,
    slot: &Slot,
) -> Report
    requires recorded { IsRecorded source.now.house source.now.records.now
        (report_in_slot fills.now (lists_of lists.now) slot.now) }
    ensures { result ≡ report_in_slot fills.now (lists_of lists.now) slot.now }
{
    match slot {
        Slot::Accepted(accepted) => accepted.report(source),
        Slot::Canceled(place) => match lists.canceled.get(*place) {
            Some(found) => found.report(),
            None => no_report(),
        },
        Slot::Other(place) => match lists.others.get(*place) {
            Some(found) => *found,
            None => no_report(),
        },
        Slot::Taker(place) => executed(fills, *place, FillRole::Taker),
        Slot::Maker(place) => executed(fills, *place, FillRole::Maker),
    }
}

/// Puts the reports of these slots' entries into the list, in place of those there. Its room is kept.
fn put_each(
    lists: &SlotLists<'_>,
    fills: &[ReportedFill],
    source: &Source<'_>,
    slots: &[Slot],
    reports: &mut Vec<Report>,
) -> Result<(), OutOfMemory>
    requires recorded { AllByRecursion (λ slot. IsRecorded source.now.house source.now.records.now
        (report_in_slot fills.now (lists_of lists.now) slot)) slots.now }
    ensures { OnOk result (reports.new.items
        ≡ map (report_in_slot fills.now (lists_of lists.now)) slots.now) }
{
    reports.clear();
    reports.reserve(slots.len())?;
    for slot in slots {
        reports.push_reserved(report_at(lists, fills, source, slot));
    }
    Ok(())
}

impl<'a> Entries<'a> {
    /// None.
    pub(crate) fn none() -> Entries<'a>
        ensures { result ≡ [] }
    {
        let lists = SlotLists {
            canceled: &[],
            others: &[],
        };
        Entries { lists, slots: &[] }
    }

    /// How many there are.
    pub(crate) fn len(&self) -> usize
        ensures { result ≡ length self.now }
    {
        self.slots.len()
    }

    /// Those from this number on, 0 counting as 1, and at most so many.
    pub(crate) fn slice(&self, from: u64, most: u64) -> Entries<'a>
        ensures { result ≡ slice self.now from most }
    {
        Entries {
            lists: self.lists,
            slots: slice(self.slots, from, most),
        }
    }

    /// Puts their reports into the list, in place of those there. Its room is kept. Each Accepted is one that the records tell.
    pub(crate) fn put_reports(
        &self,
        fills: &[ReportedFill],
        source: &Source<'_>,
        reports: &mut Vec<Report>,
    ) -> Result<(), OutOfMemory>
        requires recorded { AllByRecursion (IsRecorded source.now.house source.now.records.now)
            (map (report_stored fills.now) self.now) }
        ensures { OnOk result (reports.new.items ≡ map (report_stored fills.now) self.now) }
    {
        put_each(&self.lists, fills, source, self.slots, reports)
    }
}
