//! Reports that the records tell.

ghost use Rattle.std.specs.Prelude.{◌≡◌};
ghost use Rattle.gx_streams.specs.Recorded.{accepted_at, accepted_from};

use gx_history::record::{Asked, Request};
use gx_history::records::Records;
use gx_history::report::{Message, Report};
use gx_ouch::{Accepted, EnterOrder, Outbound};
use gx_units::{Firm, Moment};

/// What the Accepted of a user's orders are read from.
#[derive(Clone, Copy)]
pub(crate) struct Source<'a> {
    /// The firm of the account that he trades for.
    pub(crate) house: Option<Firm>,
    /// The records of the day.
    pub(crate) records: &'a Records<'a>,
}

/// Accepted, to a user of this firm, of the order of this number that was entered so.
#[inline(always)]
fn accepted_from(house: Option<Firm>, number: u64, moment: Moment, m: &EnterOrder) -> Report
    ensures { result ≡ accepted_from house number moment m.now }
{
    Report {
        timestamp: moment,
        message: Message::Order(Outbound::Accepted(Accepted {
            token: m.token,
            terms: m.terms(house.unwrap_or(m.firm)),
            order_reference: number,
        })),
    }
}

/// Accepted, to a user of this firm, of the record of this number, if an order was entered by it.
#[inline(always)]
pub(crate) fn accepted_at(house: Option<Firm>, records: &Records<'_>, number: u64) -> Option<Report>
    ensures { result ≡ accepted_at house records.now number }
{
    let place = number.saturating_sub(1) as usize;
    let moment = records.moment_at(place)?;
    match &records.asked_at(place)?.request {
        Request::Enter(m) => Some(accepted_from(house, number, moment, m)),
        _ => None,
    }
}
