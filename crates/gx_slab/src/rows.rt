//! Rows of orders, of which some have ended.

ghost use Rattle.std.specs.Prelude.{◌≡◌, ◌≤◌, ◌-◌, min, option_copied, slice_get, if◌then◌else◌};
ghost use Rattle.gx_slab.specs.Slabs.{first_place, is_open, is_waiting};

use gx_history::live_order::LiveOrder;

/// Whether some shares of the order may still be executed.
pub(crate) fn is_open(order: &LiveOrder) -> bool
    ensures { result ≡ is_open order.now }
{
    order.done < order.total
}

/// The row at this place.
pub(crate) fn row(rows: &[LiveOrder], place: usize) -> Option<&LiveOrder>
    ensures { option_copied result ≡ slice_get rows.now place }
{
    rows.get(place)
}

/// Whether the order is live, and waits.
fn is_waiting(order: &LiveOrder) -> bool
    ensures { result ≡ is_waiting order.now }
{
    is_open(order) && order.waits
}

/// Where the first live order that waits stands, of which it is known that it is not before this place; behind all rows
/// where none waits.
pub(crate) fn first_place(rows: &[LiveOrder], from: usize) -> usize
    requires { from ≤ first_place rows.now }
    ensures { result ≡ first_place rows.now }
{
    for place in from..rows.len() {
        if is_waiting(&rows[place]) {
            return place;
        }
    }
    rows.len()
}

/// The first place that may have an order that waits, once this one is written at its place.
pub(crate) fn first_once_written(order: &LiveOrder, place: usize, first: usize) -> usize
    ensures { result ≡ if order.now.waits then min place first else first }
{
    if order.waits { place.min(first) } else { first }
}

/// How many orders are live, once this one is written in the place of one that lives.
pub(crate) fn count_once_written(order: &LiveOrder, live: usize) -> usize
    ensures { result ≡ if is_open order.now then live else live - 1 }
{
    if is_open(order) {
        live
    } else {
        live.saturating_sub(1)
    }
}
