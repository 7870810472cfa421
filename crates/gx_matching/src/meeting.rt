//! The next execution: the first order that waits, against the best that rests on the other side of its stock.

ghost use Rattle.std.specs.Prelude.{◌≡◌, not};
ghost use Rattle.gx_history.specs.{Book.is_buy, Matching.unmatched_outcome};
ghost use Rattle.gx_matching.specs.Meeting.{best_against, crosses_resting, outcome_against};

use gx_book::Book;
use gx_book::resting::{Resting, is_buy};
use gx_history::live_order::LiveOrder;
use gx_history::record::{Fill, Verdict};

/// The time in force of an order that does not rest.
const IMMEDIATE_OR_CANCEL: u32 = 0;

/// The best that rests on the other side of the order's stock, which is looked for at this place of the policy's stocks
/// first.
pub fn best_against(book: &Book, order: &LiveOrder, near: usize) -> Option<Resting>
    ensures { result ≡ best_against book.now order.now }
{
    book.best(order.terms.stock, near, opposite(order.terms.side))
}

/// What becomes of an order that waits, over the best on the other side: a fill at the price of the one that rests
/// where they meet; else it comes to rest, or ends where it is immediate-or-cancel.
pub fn outcome_against(order: &LiveOrder, best: Option<Resting>) -> Verdict
    ensures { result ≡ outcome_against order.now best }
{
    match best {
        Some(best) if crosses_resting(order, &best) => Verdict::Filled(Fill {
            taker: order.number,
            maker: best.order(),
            shares: order.open().min(best.shares()),
            price: best.price(),
        }),
        _ => unmatched_outcome(order),
    }
}

/// A side that an order of this side trades with.
fn opposite(side: u8) -> u8
    ensures { is_buy result ≡ not (is_buy side) }
{
    if is_buy(side) { b'S' } else { b'B' }
}

fn crosses_resting(order: &LiveOrder, best: &Resting) -> bool
    ensures { result ≡ crosses_resting order.now best.now }
{
    if is_buy(order.terms.side) {
        best.price() <= order.terms.price
    } else {
        order.terms.price <= best.price()
    }
}

fn unmatched_outcome(order: &LiveOrder) -> Verdict
    ensures { result ≡ unmatched_outcome order.now }
{
    if order.terms.time_in_force == IMMEDIATE_OR_CANCEL {
        Verdict::Expired(order.number)
    } else {
        Verdict::Rested(order.number)
    }
}
