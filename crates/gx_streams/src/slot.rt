//! Where an entry's report lies in memory.

ghost use Rattle.std.specs.Prelude.{◌≡◌, Some};
ghost use Rattle.gx_streams.specs.Recorded.{reference_in, IsRecorded};

use crate::recorded::{Source, accepted_at};
use gx_history::report::{Message, Report};
use gx_ouch::{Canceled, Outbound};
use gx_units::Moment;
use std::snapshot::Snapshot;

/// What is kept of an entry's report, or where it lies: most kinds of report are shorter than the longest.
#[derive(Drop)]
pub(crate) enum Slot {
    /// This Accepted.
    Accepted(AcceptedAt),
    /// The Canceled at this place.
    Canceled(usize),
    /// The report of another kind at this place.
    Other(usize),
    /// Executed, of the order that came in: the fill's place in the list of all fills.
    Taker(usize),
    /// Executed, of the order that rested.
    Maker(usize),
}

/// The Accepted of an order: the order's record tells it.
#[derive(Drop)]
pub(crate) struct AcceptedAt {
    /// The number of the record.
    pub(crate) number: u64,
    /// The report. It is there for contracts alone, and takes no memory.
    pub(crate) told: Snapshot<Report>,
    ghost its_own: { reference_in told.value ≡ Some number },
}

/// Canceled, with its timestamp.
#[derive(Clone, Copy)]
pub(crate) struct CanceledAt {
    /// Timestamp: nanoseconds past midnight.
    pub(crate) moment: Moment,
    /// All else of it.
    pub(crate) canceled: Canceled,
}

impl AcceptedAt {
    /// What is kept of the report, which is the Accepted of the order of this number.
    #[inline(always)]
    pub(crate) fn of(report: &Report, number: u64) -> AcceptedAt
        requires { reference_in report.now ≡ Some number }
        ensures { result.told.value ≡ report.now }
    {
        AcceptedAt {
            number,
            told: Snapshot::of(report),
        }
    }

    /// The report, which the records tell.
    #[inline(always)]
    pub(crate) fn report(&self, source: &Source<'_>) -> Report
        requires recorded { IsRecorded
            source.now.house source.now.records.now self.now.told.value }
        ensures { result ≡ self.now.told.value }
    {
        match accepted_at(source.house, source.records, self.number) {
            Some(report) => report,
            None => unreachable!(),
        }
    }
}

impl CanceledAt {
    ghost use Rattle.gx_streams.specs.Slots.{canceled_report};

    /// The report.
    pub(crate) fn report(&self) -> Report
        ensures { result ≡ canceled_report self.now }
    {
        Report {
            timestamp: self.moment,
            message: Message::Order(Outbound::Canceled(self.canceled)),
        }
    }
}
