//! The table.

ghost use Rattle.std.specs.{Option.option_map_or, Prelude.{◌≡◌, ◌<◌, ◌^◌, [], ◌∷◌, ◌++◌, length, None, option_copied, IsTrue, IfOk, OnOk, OnErr}};
ghost use Rattle.gx_slab.specs.Slabs.{at_rest, first_waiting, is_open, live_numbered, numbered_of, order_of, live_with};

use crate::live::LiveOrders;
use crate::places::{make_room, order_of, place_of, thin_out};
use crate::rows::{count_once_written, first_once_written, first_place, row};
use gx_history::live_order::LiveOrder;
use gx_units::{AccountName, OutOfMemory};
use std::alloc::Global;
use std::marker::Model;

/// So many orders have room from the first on: a list that grows moves all that it holds.
const FIRST_ORDERS: usize = 16_384;

/// And so many numbers, since each record has one: of two, an order that comes and that it rests, one is an order's.
const FIRST_NUMBERS: usize = 32_768;

/// Orders in rows, in the order in which they were put: found by number, and changed where they stand. Contracts see the
/// list of those that are live. Rows of orders that have ended are taken out once they are more than the live ones (and
/// some), so that a walk over the rows is one over the live orders, and a call takes the same time however many have ended.
#[derive(Drop)]
pub struct Table {
    /// For each number where its live order stands; of the others it says nothing.
    places: Vec<usize>,
    /// Those that have ended have nothing open.
    rows: Vec<LiveOrder>,
    /// How many are live.
    live: usize,
    /// Where the first live one that waits stands; behind all where none does.
    first: usize,
}

impl Model for Table {
    ghost use Rattle.std.specs.Prelude.{List};
    ghost use Rattle.gx_history.specs.declared.live_order.LiveOrder.{LiveOrder};
    ghost use Rattle.gx_slab.specs.Slabs.{IsTable, open_ones};

    ghost Value = { List LiveOrder };

    ghost view = { λ t. open_ones t.rows.items };

    ghost invariant = { λ t. IsTable t.places.items t.rows.items t.live t.first };
}

impl Table {
    /// No order.
    ///
    /// # Errors
    ///
    /// `OutOfMemory` where there is no memory for the first orders.
    pub fn new(alloc: Global) -> Result<Table, OutOfMemory>
        ensures { IfOk result (λ table. table ≡ []) }
    {
        let places = Vec::with_capacity(alloc, FIRST_NUMBERS)?;
        let rows = Vec::with_capacity(alloc, FIRST_ORDERS)?;
        Ok(Table {
            places,
            rows,
            live: 0,
            first: 0,
        })
    }

    /// How many orders are live. It looks at none.
    pub fn count(&self) -> usize
        ensures counted { result ≡ length self.now }
        ensures few { result < 2 ^ 63 }
    {
        let _ = self.rows.len();
        self.live
    }

    /// The live order of this number.
    pub fn get(&self, number: u64) -> Option<&LiveOrder>
        ensures { option_copied result ≡ live_numbered self.now number }
    {
        let place = place_of(&self.places, &self.rows, number)?;
        row(&self.rows, place)
    }

    /// The first live order that waits. It looks at no other.
    pub fn first_waiting(&self) -> Option<&LiveOrder>
        ensures { option_copied result ≡ first_waiting self.now }
    {
        row(&self.rows, self.first)
    }

    /// The live orders, in the order in which they were put.
    pub fn live(&self) -> LiveOrders<'_>
        ensures { result ≡ self.now }
    {
        LiveOrders::of_rows(&self.places, &self.rows)
    }

    /// The live order of this number, where it is one of the account.
    pub fn get_of(&self, account: AccountName, number: u64) -> Option<&LiveOrder>
        ensures { option_copied result ≡ order_of account self.now number }
    {
        order_of(&self.places, &self.rows, account, number)
    }

    /// The live orders of the account that have these numbers, each where its number stands. It looks at no other.
    pub fn numbered_of<'a>(&'a self, account: AccountName, numbers: &'a [u64]) -> LiveOrders<'a>
        ensures { result ≡ numbered_of account self.now numbers.now }
    {
        LiveOrders::of_numbers(&self.places, &self.rows, account, numbers)
    }

    /// Puts the order last.
    ///
    /// # Errors
    ///
    /// `OutOfMemory` where there is no memory for one more; then nothing has changed.
    pub fn push(&mut self, order: LiveOrder) -> Result<(), OutOfMemory>
        requires lives { IsTrue (is_open order) }
        requires fresh { live_numbered self.old order.number ≡ None }
        ensures ok { OnOk result (self.new ≡ self.old ++ order ∷ []) }
        ensures err { OnErr result (self.new ≡ self.old) }
    {
        self.rows.reserve(1)?;
        make_room(&mut self.places, order.number)?;
        self.places[order.number as usize] = self.rows.len();
        self.rows.push_reserved(order);
        self.live += 1;
        self.first = first_place(&self.rows, self.first);
        Ok(())
    }

    /// Writes the order in the place of the one of its number, if that is live; it is gone where nothing of it is open.
    /// It takes no memory.
    #[inline(always)]
    pub fn write(&mut self, order: LiveOrder)
        ensures { self.new ≡ live_with order self.old }
    {
        let Some(place) = place_of(&self.places, &self.rows, order.number) else {
            return;
        };
        let from = first_once_written(&order, place, self.first);
        self.rows[place] = order;
        self.live = count_once_written(&order, self.live);
        self.first = thin_out(&mut self.places, &mut self.rows, self.live, from);
    }

    /// The live order of this number waits no more. Nothing changes where none has the number. It takes no memory.
    pub fn rest(&mut self, number: u64)
        ensures { self.new ≡ option_map_or (λ o. live_with (at_rest o) self.old)
            (live_numbered self.old number) self.old }
    {
        let Some(place) = place_of(&self.places, &self.rows, number) else {
            return;
        };
        self.rows[place].waits = false;
        self.first = first_place(&self.rows, self.first);
    }

    /// All orders have ended. It takes no memory.
    pub fn end_all(&mut self)
        ensures { self.new ≡ [] }
    {
        self.rows.clear();
        self.live = 0;
        self.first = 0;
    }
}
