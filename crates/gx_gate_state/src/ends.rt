//! The orders that a command ends.

ghost use Rattle.std.specs.Prelude.{◌≡◌, true, map, MatchOption};
ghost use Rattle.gx_ledger.specs.Following.{ClosesAll};
ghost use Rattle.gx_matching.specs.{Changes.ended_by, Standing.IsLiveBook};
ghost use Rattle.gx_orders.specs.Changes.{is_lasting, live_left, with_live};
ghost use Rattle.gx_gate_state.specs.{Ends.{end_report, end_reports, with_end_reports, HaveReservedFor}, Ledgers.ended_orders};
ghost use Rattle.gx_streams.specs.Telling.{with_all_reports};

use crate::reports::ended;
use gx_book::Book;
use gx_desk::Action;
use gx_history::report::Report;
use gx_index::Near;
use gx_ledger::Ledger;
use gx_orders::Orders;
use gx_people::People;
use gx_slab::live::LiveOrders;
use gx_streams::Streams;
use gx_units::Moment;

/// The live orders that the command ends, by number; `None` where it is one that ends none.
#[tactic(auto, using(crate::proofs::EndedOrders_call::all_end))]
fn ended_by<'a>(orders: &'a Orders, action: &Action) -> Option<LiveOrders<'a>>
    ensures { MatchOption result (is_lasting action.now ≡ true)
        (λ found. found ≡ ended_orders action.now orders.now.live) }
{
    match *action {
        Action::Kill(account) => Some(orders.live_of(account)),
        Action::CloseDay => Some(orders.live()),
        _ => None,
    }
}

/// Where the names of the orders that the command ends are looked for first: those of the first one. Nothing but time
/// rests on these places.
pub fn near_ended(people: &People, orders: &Orders, action: &Action) -> Near {
    match *action {
        Action::Kill(account) => match orders.live_of(account).next() {
            Some(order) => people.near(order.user),
            None => Near::FIRST,
        },
        _ => Near::FIRST,
    }
}

/// Tells the user of each of these orders that it has ended. Here and below, the names of each order are looked for at
/// these places first.
fn tell_each(streams: &mut Streams, ending: LiveOrders<'_>, near: Near, moment: Moment)
    requires { HaveReservedFor (map (end_report moment) ending) streams.old }
    ensures { streams.new ≡ with_all_reports (map (end_report moment) ending.entry) streams.old }
{
    for order in ending {
        streams.append_reserved(
            order.user,
            near.user,
            Report {
                timestamp: moment,
                message: ended(order),
            },
        );
    }
}

/// Tells each user, by number, of his live orders that the command ends.
pub fn tell_of_ends(
    streams: &mut Streams,
    orders: &Orders,
    action: &Action,
    near: Near,
    moment: Moment,
)
    requires { HaveReservedFor (end_reports action.now moment orders.now.live) streams.old }
    ensures { streams.new ≡ with_end_reports action.now moment orders.now.live streams.old }
{
    if let Some(ending) = ended_by(orders, action) {
        tell_each(streams, ending, near, moment);
    }
}

/// Takes note that each of these orders ends.
fn close_each(ledger: &mut Ledger, ending: LiveOrders<'_>, near: Near)
    ensures { ClosesAll ending.entry ledger.old ledger.new }
{
    for order in ending {
        ledger.close(order, near);
    }
}

/// Ends the live orders that the command is for: they leave the book, and are counted no more. It
/// takes no memory. A Kill goes through its account's orders alone.
pub fn end_orders(
    ledger: &mut Ledger,
    orders: &mut Orders,
    book: &mut Book,
    action: &Action,
    near: Near,
)
    requires { IsLiveBook orders.old.live book.old }
    ensures closed { ClosesAll (ended_orders action.now orders.old.live) ledger.old ledger.new }
    ensures left { orders.new ≡ with_live (live_left action.now orders.old.live) orders.old }
    ensures taken { book.new ≡ ended_by action.now book.old }
{
    match *action {
        Action::Kill(account) => {
            close_each(ledger, orders.live_of(account), near);
            book.remove_account(account, orders.live_of(account));
            orders.end_account(account, near.user);
        }
        Action::CloseDay => {
            close_each(ledger, orders.live(), near);
            orders.end_all();
            book.remove_all();
        }
        _ => {}
    }
}
