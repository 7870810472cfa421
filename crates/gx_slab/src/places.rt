//! Where the order of each number stands.

ghost use Rattle.std.specs.{Prelude.{◌≡◌, ◌≤◌, OnErr, OnOk, length, option_copied, slice_get}, List.position};
ghost use Rattle.gx_slab.specs.Slabs.{CanBePlaced, HasRoom, IsDense, IsPlaced, first_place, open_ones, order_of, stands_for};

use crate::rows::{first_place, is_open, row};
use gx_history::live_order::LiveOrder;
use gx_units::{AccountName, OutOfMemory};

/// So many rows of orders that have ended may stand beside those that have as many live ones.
const SLACK: usize = 32;

/// The place that is noted for the number.
fn noted(places: &[usize], number: u64) -> Option<usize>
    ensures { result ≡ slice_get places.now number }
{
    places.get(number as usize).copied()
}

/// Where the live order of this number stands.
pub(crate) fn place_of(places: &[usize], rows: &[LiveOrder], number: u64) -> Option<usize>
    requires placed { IsPlaced places.now rows.now }
    ensures { result ≡ position (stands_for number) rows.now }
{
    let place = noted(places, number)?;
    let order = row(rows, place)?;
    if is_open(order) && order.number == number {
        Some(place)
    } else {
        None
    }
}

/// The live order of this number, where it is one of the account.
pub(crate) fn order_of<'a>(
    places: &[usize],
    rows: &'a [LiveOrder],
    account: AccountName,
    number: u64,
) -> Option<&'a LiveOrder>
    requires placed { IsPlaced places.now rows.now }
    ensures { option_copied result ≡ order_of account (open_ones rows.now) number }
{
    let place = place_of(places, rows, number)?;
    let order = row(rows, place)?;
    if order.is_of_account(account) {
        Some(order)
    } else {
        None
    }
}

/// So many places are made at once: one for a number, and those of the numbers behind it.
const AT_ONCE: usize = 64;

/// Makes room for the place of this number.
pub(crate) fn make_room(places: &mut Vec<usize>, number: u64) -> Result<(), OutOfMemory>
    ensures ok { OnOk result (HasRoom number places.old.items places.new.items) }
    ensures err { OnErr result (places.new.items ≡ places.old.items) }
{
    let at = number as usize;
    if at < places.len() {
        return Ok(());
    }
    let Some(room) = at.checked_add(AT_ONCE) else {
        return Err(OutOfMemory);
    };
    places.resize(room, 0)?;
    Ok(())
}

/// Notes where each of the orders stands.
fn note_all(places: &mut Vec<usize>, rows: &[LiveOrder])
    requires { CanBePlaced places.old.items rows.now }
    ensures { IsPlaced places.new.items rows.now }
{
    for (place, order) in rows.iter().enumerate() {
        places[order.number as usize] = place;
    }
}

/// Takes out the orders that have ended.
#[inline(never)]
fn sweep(places: &mut Vec<usize>, rows: &mut Vec<LiveOrder>)
    requires { IsPlaced places.old.items rows.old.items }
    ensures left { rows.new.items ≡ open_ones rows.old.items }
    ensures placed { IsPlaced places.new.items rows.new.items }
{
    rows.retain(|order| is_open(order));
    note_all(places, rows);
}

/// Takes out the orders that have ended, once they are many beside those that are live, and finds the first that waits,
/// of which it is known that it is not before this place.
pub(crate) fn thin_out(
    places: &mut Vec<usize>,
    rows: &mut Vec<LiveOrder>,
    live: usize,
    from: usize,
) -> usize
    requires placed { IsPlaced places.old.items rows.old.items }
    requires counted { live ≡ length (open_ones rows.old.items) }
    requires ahead { from ≤ first_place rows.old.items }
    ensures shown { open_ones rows.new.items ≡ open_ones rows.old.items }
    ensures placed { IsPlaced places.new.items rows.new.items }
    ensures dense { IsDense rows.new.items live }
    ensures first { result ≡ first_place rows.new.items }
{
    let ended = rows.len().saturating_sub(live);
    if ended.saturating_sub(live) <= SLACK {
        return first_place(rows, from);
    }
    sweep(places, rows);
    first_place(rows, 0)
}
