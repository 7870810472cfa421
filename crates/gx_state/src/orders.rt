//! The live orders, a line each.

use crate::numbers::{append_decimal, append_padded};
use gx_history::live_order::LiveOrder;
use gx_slab::live::LiveOrders;
use gx_text::{append, append_number, append_shown};
use gx_units::OutOfMemory;

/// The line of an order.
fn append_order(text: &mut Vec<u8>, order: &LiveOrder) -> Result<(), OutOfMemory> {
    append(text, b"order     ")?;
    append_number(text, order.number)?;
    append(text, b"  ")?;
    append_padded(text, &order.account.bytes)?;
    append(text, b"  ")?;
    append_padded(text, &order.user.bytes)?;
    append(text, b"  ")?;
    append_padded(text, &order.token.bytes)?;
    append(text, b"  ")?;
    append_shown(text, &[order.terms.side])?;
    append(text, b" ")?;
    append_number(text, u64::from(order.open()))?;
    append(text, b" of ")?;
    append_number(text, u64::from(order.total))?;
    append(text, b"  ")?;
    append_padded(text, &order.terms.stock.bytes)?;
    append(text, b"  at ")?;
    append_decimal(text, u128::from(order.terms.price))?;
    if order.waits {
        append(text, b"  waits")?;
    }
    append(text, b"\n")
}

/// A line for each live order, the oldest first.
pub(crate) fn append_order_lines(
    text: &mut Vec<u8>,
    orders: LiveOrders<'_>,
) -> Result<(), OutOfMemory> {
    for order in orders {
        append_order(text, order)?;
    }
    Ok(())
}
