//! The two sides of a stock.

ghost use Rattle.std.specs.{Prelude.{◌≡◌, ◌-◌, ◌+◌, [], OnOk, OnErr, slice_get, length, is_some, if◌then◌else◌}, List.find};
ghost use Rattle.gx_history.specs.LiveOrders.{shares_open};
ghost use Rattle.gx_book.specs.{Resting.resting_of, Queue.{IsLatest, is_same, left_with, no_orders, taken_from_first, with_order, without_order}, Table.{both_changed, with_side_changed, side_in}};

use crate::resting::Resting;
use crate::side::Side;
use gx_history::live_order::LiveOrder;
use gx_units::OutOfMemory;
use std::alloc::Global;

/// The buys and the sells of a stock.
#[derive(Drop)]
pub(crate) struct BothSides {
    pub(crate) buys: Side<b'B'>,
    pub(crate) sells: Side<b'S'>,
}

impl BothSides {
    /// Two sides without orders. Takes no memory.
    pub(crate) fn new(alloc: Global) -> BothSides
        ensures buys { result.buys ≡ [] }
        ensures sells { result.sells ≡ [] }
    {
        BothSides {
            buys: Side::new(alloc),
            sells: Side::new(alloc),
        }
    }

    /// The best order of a side, true for buys.
    pub(crate) fn first(&self, buy: bool) -> Option<Resting>
        ensures { result ≡ slice_get (side_in buy self.now) 0 }
    {
        if buy {
            self.buys.first()
        } else {
            self.sells.first()
        }
    }

    /// Puts the order on this side, behind all of equal or better price.
    pub(crate) fn put(&mut self, buy: bool, order: &LiveOrder) -> Result<(), OutOfMemory>
        requires { IsLatest (resting_of order.now) (side_in buy self.old) }
        ensures ok { OnOk result
            (self.new ≡ with_side_changed buy (with_order buy (resting_of order.now)) self.old) }
        ensures err { OnErr result (self.new ≡ self.old) }
    {
        if buy {
            self.buys.put(order)
        } else {
            self.sells.put(order)
        }
    }

    /// Takes so many shares from the best order of this side; it goes where none are left.
    pub(crate) fn take_from_first(&mut self, buy: bool, shares: u32)
        ensures { self.new ≡ with_side_changed buy (taken_from_first shares) self.old }
    {
        if buy {
            self.buys.take_from_first(shares);
        } else {
            self.sells.take_from_first(shares);
        }
    }

    /// Takes so many shares from the order, where it is on this side; it goes where none are left.
    pub(crate) fn reduce(&mut self, buy: bool, order: &LiveOrder, shares: u32)
        ensures { self.new
            ≡ with_side_changed buy
            (left_with (resting_of order.now) (shares_open order.now - shares)) self.old }
    {
        if buy {
            self.buys.reduce(order, shares);
        } else {
            self.sells.reduce(order, shares);
        }
    }

    /// Takes the order out of this side, and answers what it was; `None` where it is not there.
    pub(crate) fn remove(&mut self, buy: bool, order: &LiveOrder) -> Option<Resting>
        ensures given { result ≡ find (is_same (resting_of order.now)) (side_in buy self.old) }
        ensures removed { self.new
            ≡ with_side_changed buy (without_order (resting_of order.now)) self.old }
        ensures counted { length (side_in buy self.new) + (if is_some result then 1 else 0)
            ≡ length (side_in buy self.old) }
    {
        if buy {
            self.buys.remove(order)
        } else {
            self.sells.remove(order)
        }
    }

    /// Takes all orders out.
    pub(crate) fn remove_all(&mut self)
        ensures { self.new ≡ both_changed no_orders self.old }
    {
        self.buys.remove_all();
        self.sells.remove_all();
    }
}
