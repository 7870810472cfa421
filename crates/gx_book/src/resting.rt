//! An order that rests.

ghost use Rattle.std.specs.Prelude.{◌≡◌};
ghost use Rattle.gx_history.specs.{Book.is_buy, LiveOrders.shares_open};
ghost use Rattle.gx_book.specs.Keys.{resting_of_kept};

use gx_history::live_order::LiveOrder;
use std::marker::Model;
use std::snapshot::Snapshot;

/// What a side of the book keeps of an order, under its price and its number.
#[derive(Drop)]
pub(crate) struct KeptOrder {
    /// The shares that may still be executed.
    pub(crate) shares: u32,
    /// The order as it came to rest. It is there for contracts alone, and takes no memory.
    pub(crate) order: Snapshot<LiveOrder>,
}

impl KeptOrder {
    /// All that is open of the order.
    pub(crate) fn of(order: &LiveOrder) -> KeptOrder
        ensures shares { result.shares ≡ shares_open order.now }
        ensures order { result.order.value ≡ order.now }
    {
        KeptOrder {
            shares: order.open(),
            order: Snapshot::of(order),
        }
    }
}

/// An order that rests: its number, its limit and the shares open of it. Contracts see beside these whose it is; the live
/// order of its number tells that.
#[derive(Drop)]
pub struct Resting {
    order: u64,
    price: u32,
    shares: u32,
    /// It is there for contracts alone, and takes no memory.
    kept: Snapshot<KeptOrder>,
}

impl Model for Resting {
    ghost use Rattle.gx_book.specs.Resting.{RestingData};

    ghost Value = { RestingData };

    ghost view = { λ r. record {
      order = r.order;
      account = r.kept.value.order.value.account;
      user = r.kept.value.order.value.user;
      price = r.price;
      shares = r.shares;
    } };
}

impl Resting {
    /// The order of this number and this limit of which that is kept.
    pub(crate) fn of(order: u64, price: u32, kept: &KeptOrder) -> Resting
        ensures { result ≡ resting_of_kept order price kept.now }
    {
        Resting {
            order,
            price,
            shares: kept.shares,
            kept: Snapshot::of(kept),
        }
    }

    /// The number of the record that granted it.
    pub fn order(&self) -> u64
        ensures { result ≡ self.now.order }
    {
        self.order
    }

    /// Its limit, in ten-thousandths of a dollar.
    pub fn price(&self) -> u32
        ensures { result ≡ self.now.price }
    {
        self.price
    }

    /// The shares that may still be executed.
    pub fn shares(&self) -> u32
        ensures { result ≡ self.now.shares }
    {
        self.shares
    }
}

/// Whether the side is that of buys.
pub fn is_buy(side: u8) -> bool
    ensures { result ≡ is_buy side }
{
    side == b'B'
}
