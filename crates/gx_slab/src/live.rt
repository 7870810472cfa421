//! Live orders, one by one.

ghost use Rattle.std.specs.{Iterator.at_most, Map.Iter.{TakesFirst, deref}, Prelude.{◌≡◌, [], ◌∷◌, length, MatchOption}, List.position};
ghost use Rattle.gx_slab.specs.Slabs.{IsPlaced, is_open, numbered_of, open_ones};

use crate::places::order_of;
use crate::rows::is_open;
use gx_history::live_order::LiveOrder;
use gx_units::AccountName;
use std::marker::Model;

/// Where the first live order stands.
fn first_open(rows: &[LiveOrder]) -> Option<usize>
    ensures { result ≡ position is_open rows.now }
{
    rows.iter().position(|order| is_open(order))
}

/// The first live order, and the rows behind it.
fn first_of(rows: &[LiveOrder]) -> Option<(&LiveOrder, &[LiveOrder])>
    ensures { MatchOption result (open_ones rows.now ≡ [])
        (λ parts. open_ones rows.now ≡ parts.0.now ∷ open_ones parts.1.now) }
{
    let i = first_open(rows)?;
    Some((&rows[i], &rows[i + 1..]))
}

/// The first live order of the account that has one of these numbers, and the numbers behind its own.
fn first_numbered<'a>(
    places: &[usize],
    rows: &'a [LiveOrder],
    account: AccountName,
    numbers: &'a [u64],
) -> Option<(&'a LiveOrder, &'a [u64])>
    requires placed { IsPlaced places.now rows.now }
    ensures { MatchOption result (numbered_of account (open_ones rows.now) numbers.now ≡ [])
        (λ parts. numbered_of account (open_ones rows.now) numbers.now
        ≡ parts.0.now ∷ numbered_of account (open_ones rows.now) parts.1.now) }
{
    for i in 0..numbers.len() {
        if let Some(order) = order_of(places, rows, account, numbers[i]) {
            return Some((order, &numbers[i + 1..]));
        }
    }
    None
}

/// Live orders: all, in the order in which they were put, or those of an account that have certain numbers, in the order
/// of the numbers.
#[derive(Drop)]
pub struct LiveOrders<'a> {
    /// Rows of which the live ones come first.
    left: &'a [LiveOrder],
    /// Numbers of which the account's live orders come then.
    numbers: &'a [u64],
    account: AccountName,
    places: &'a [usize],
    rows: &'a [LiveOrder],
}

impl<'a> Model for LiveOrders<'a> {
    ghost use Rattle.std.specs.Prelude.{List, ◌++◌};
    ghost use Rattle.gx_history.specs.declared.live_order.LiveOrder.{LiveOrder};
    ghost use Rattle.gx_slab.specs.Slabs.{IsPlaced, numbered_of, open_ones};

    ghost Value = { List LiveOrder };

    ghost view = { λ o. open_ones o.left.now
        ++ numbered_of o.account (open_ones o.rows.now) o.numbers.now };

    ghost invariant = { λ o. IsPlaced o.places.now o.rows.now };
}

impl<'a> LiveOrders<'a> {
    /// Those of the rows.
    pub(crate) fn of_rows(places: &'a [usize], rows: &'a [LiveOrder]) -> LiveOrders<'a>
        requires placed { IsPlaced places.now rows.now }
        ensures { result ≡ open_ones rows.now }
    {
        LiveOrders {
            left: rows,
            numbers: &[],
            account: AccountName { bytes: [b' '; 8] },
            places,
            rows,
        }
    }

    /// Those of the account that have these numbers.
    pub(crate) fn of_numbers(
        places: &'a [usize],
        rows: &'a [LiveOrder],
        account: AccountName,
        numbers: &'a [u64],
    ) -> LiveOrders<'a>
        requires placed { IsPlaced places.now rows.now }
        ensures { result ≡ numbered_of account (open_ones rows.now) numbers.now }
    {
        LiveOrders {
            left: &[],
            numbers,
            account,
            places,
            rows,
        }
    }
}

impl<'a> Iterator for LiveOrders<'a> {
    type Item = &'a LiveOrder;

    ghost next_gives = { TakesFirst deref };

    ghost remaining = { λ s. at_most (length s) };

    fn next(&mut self) -> Option<&'a LiveOrder> {
        if let Some((first, others)) = first_of(self.left) {
            self.left = others;
            return Some(first);
        }
        let (first, others) = first_numbered(self.places, self.rows, self.account, self.numbers)?;
        self.numbers = others;
        Some(first)
    }
}
