//! One side of a stock.

ghost use Rattle.std.specs.{Prelude.{◌≡◌, ◌-◌, ◌+◌, [], IsTrue, OnOk, OnErr, slice_get, length, is_some, if◌then◌else◌}, List.find};
ghost use Rattle.gx_history.specs.{Book.is_buy, LiveOrders.shares_open};
ghost use Rattle.gx_book.specs.{Resting.{RestingData, resting_of}, Queue.{IsLatest, is_same, left_with, taken_from_first, with_order, without_order}, Keys.{is_keyed, price_at}};

use crate::resting::{KeptOrder, Resting, is_buy};
use gx_history::live_order::LiveOrder;
use gx_units::OutOfMemory;
use std::alloc::Global;
use std::collections::BTreeMap;
use std::marker::Model;

/// The orders on one side of a stock, that of buys or of sells, in price-time priority.
#[derive(Drop)]
pub(crate) struct Side<const SIDE: u8> {
    /// What is open of each order, by the rank of its price and its number.
    orders: BTreeMap<(u32, u64), KeptOrder>,
}

impl<const SIDE: u8> Model for Side<SIDE> {
    ghost use Rattle.std.specs.Prelude.{List, IsTrue};
    ghost use Rattle.std.specs.Map.{values_of};
    ghost use Rattle.gx_history.specs.Book.{is_buy};
    ghost use Rattle.gx_book.specs.Resting.{RestingData};
    ghost use Rattle.gx_book.specs.Keys.{are_keyed, orders_at};

    ghost Value = { List RestingData };

    ghost view = { λ side. values_of (orders_at (is_buy SIDE) side.orders.entries) };

    ghost invariant = { λ side.
        IsTrue (are_keyed (is_buy SIDE) (orders_at (is_buy SIDE) side.orders.entries)) };
}

impl<const SIDE: u8> Side<SIDE> {
    /// A side without orders. Takes no memory.
    pub(crate) fn new(alloc: Global) -> Self
        ensures { result ≡ [] }
    {
        Side {
            orders: BTreeMap::new(alloc),
        }
    }

    /// The rank of a price on this side, and the price of a rank. The better the price, the lower the rank.
    fn turned(price: u32) -> u32
        ensures { result ≡ price_at (is_buy SIDE) price }
    {
        if is_buy(SIDE) {
            u32::MAX - price
        } else {
            price
        }
    }

    /// The rank of the order's price on this side, and its number.
    #[tactic(auto, using(crate::proofs::Side_keys::order_is_keyed))]
    fn key_of(order: &LiveOrder) -> (u32, u64)
        ensures keyed { IsTrue (is_keyed (is_buy SIDE) (result, resting_of order.now)) }
        ensures meant { price_at (is_buy SIDE) result.0 ≡ order.now.terms.price }
        ensures numbered { result.1 ≡ order.now.number }
    {
        (Self::turned(order.terms.price), order.number)
    }

    /// The best order.
    pub(crate) fn first(&self) -> Option<Resting>
        ensures { result ≡ slice_get self.now 0 }
    {
        let ((rank, number), kept) = self.orders.first_key_value()?;
        Some(Resting::of(*number, Self::turned(*rank), kept))
    }

    /// Puts the order behind all of equal or better price.
    pub(crate) fn put(&mut self, order: &LiveOrder) -> Result<(), OutOfMemory>
        requires { IsLatest (resting_of order.now) self.old }
        ensures ok { OnOk result
            (self.new ≡ with_order (is_buy SIDE) (resting_of order.now) self.old) }
        ensures err { OnErr result (self.new ≡ self.old) }
    {
        self.orders
            .insert(Self::key_of(order), KeptOrder::of(order))?;
        Ok(())
    }

    /// Leaves so many shares of the order under this key, if there is one: it stays where it stands, or goes where none
    /// are left.
    fn leave(&mut self, key: (u32, u64), shares: u32)
        ensures { (r : RestingData) → IsTrue (is_keyed (is_buy SIDE) (key, r))
            → self.new ≡ left_with r shares self.old }
    {
        // What this ensures: the keys ascend.
        let _ = self.orders.len();
        if shares == 0 {
            drop(self.orders.remove(&key));
        } else if let Some(kept) = self.orders.get_mut(&key) {
            kept.shares = shares;
        }
    }

    /// Takes so many shares from the best order; it goes where none are left.
    pub(crate) fn take_from_first(&mut self, shares: u32)
        ensures { self.new ≡ taken_from_first shares self.old }
    {
        if let Some((key, kept)) = self.orders.first_key_value() {
            let (key, left) = (*key, kept.shares.saturating_sub(shares));
            self.leave(key, left);
        }
    }

    /// Takes so many shares from the order, where it is; it goes where none are left.
    pub(crate) fn reduce(&mut self, order: &LiveOrder, shares: u32)
        ensures { self.new
            ≡ left_with (resting_of order.now) (shares_open order.now - shares) self.old }
    {
        self.leave(Self::key_of(order), order.open().saturating_sub(shares));
    }

    /// Takes the order out, and answers what it was; `None` where it is not here.
    pub(crate) fn remove(&mut self, order: &LiveOrder) -> Option<Resting>
        ensures given { result ≡ find (is_same (resting_of order.now)) self.old }
        ensures removed { self.new ≡ without_order (resting_of order.now) self.old }
        ensures counted { length self.new + (if is_some result then 1 else 0)
            ≡ length self.old }
    {
        // What this ensures: the keys ascend.
        let _ = self.orders.len();
        let kept = self.orders.remove(&Self::key_of(order))?;
        Some(Resting::of(order.number, order.terms.price, &kept))
    }

    /// Takes all orders out.
    pub(crate) fn remove_all(&mut self)
        ensures { self.new ≡ [] }
    {
        self.orders.clear();
    }
}
