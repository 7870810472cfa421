//! The book.

ghost use Rattle.std.specs.Prelude.{◌≡◌, ◌+◌, is_some, length, min, IfOk, OnOk, OnErr, if◌then◌else◌};
ghost use Rattle.gx_history.specs.Book.{is_buy};
ghost use Rattle.gx_book.specs.{Account.{AreAllOf, count_of}, Books.{IsSound, all_orders, best_in, empty_book, on_each_side, stock_in}, Changes.{found_in, own_side, put_to_rest, with_fewer_shares, taken_from_best, taken_out}, Queue.{IsLatest, no_orders, without_account}, Resting.resting_of};

use crate::resting::{Resting, is_buy};
use crate::sides::BothSides;
use gx_history::live_order::LiveOrder;
use gx_index::{get_mut_near, get_near, index_near};
use gx_policy::{Policy, Stock};
use gx_slab::live::LiveOrders;
use gx_slots::Slots;
use gx_units::{AccountName, OutOfMemory, Symbol};
use indexmap::IndexMap;
use std::alloc::Global;
use std::marker::Model;

/// The orders that rest, per listed stock and side in price-time priority. Contracts see, for each stock, the list of
/// the buys and the list of the sells. Only `new` and `rest` take memory.
#[derive(Drop)]
pub struct Book {
    by_stock: IndexMap<Symbol, BothSides>,
    /// Where each stock is looked for first.
    slots: Slots<usize>,
}

impl Model for Book {
    ghost use Rattle.std.specs.Prelude.{List, IsTrue};
    ghost use Rattle.gx_book.specs.Books.{StockOrders, is_sound_book};
    ghost use Rattle.gx_book.specs.Table.{book_of};

    ghost Value = { List StockOrders };

    ghost view = { λ book. book_of book.by_stock.entries };

    ghost invariant = { λ book. IsTrue (is_sound_book (book_of book.by_stock.entries)) };
}

/// Eight slots for each stock that a policy may have, so that few share one.
const STOCK_SLOTS: usize = 8192;

/// The place of each stock among these.
fn slots_of(alloc: Global, stocks: &[Stock]) -> Result<Slots<usize>, OutOfMemory> {
    let mut slots = Slots::new(alloc, STOCK_SLOTS, 0)?;
    for (place, stock) in stocks.iter().enumerate() {
        slots.put(stock.name, place);
    }
    Ok(slots)
}

impl Book {
    /// The policy's stocks, without an order.
    ///
    /// # Errors
    ///
    /// `OutOfMemory` where there is no memory for the names of the stocks.
    pub fn new(alloc: Global, policy: &Policy) -> Result<Book, OutOfMemory>
        ensures { IfOk result (λ book. book ≡ empty_book policy.now) }
    {
        // What this ensures: no two stocks have one name.
        let _ = policy.rules();
        let slots = slots_of(alloc, policy.stocks())?;
        let mut by_stock = IndexMap::with_capacity(alloc, policy.stocks().len())?;
        for stock in policy.stocks() {
            by_stock.insert(stock.name, BothSides::new(alloc))?;
        }
        Ok(Book { by_stock, slots })
    }

    /// Where the stock stands in the policy: tables in its order look there first. Nothing but time rests on it; it is 0
    /// for a stock that is not listed.
    pub fn near(&self, stock: Symbol) -> usize {
        match self.slots.find(stock) {
            Some(place) => place,
            None => self.near_by_hash(stock),
        }
    }

    /// The same of a stock that shares its slot with another.
    #[inline(never)]
    fn near_by_hash(&self, stock: Symbol) -> usize {
        self.by_stock.get_index_of(&stock).unwrap_or(0)
    }

    /// Whether the stock, which is looked for at this place of the policy's stocks first, is listed.
    #[tactic(auto, using(crate::proofs::Stocks_table::listed_found))]
    pub fn lists(&self, stock: Symbol, near: usize) -> bool
        ensures { result ≡ is_some (stock_in self.now stock) }
    {
        index_near(&self.by_stock, near, stock).is_some()
    }

    /// The best order on a side of the stock: of those with the best price the first to rest. Here and below, the stock is
    /// looked for at this place of the policy's stocks first.
    #[tactic(auto, using(crate::proofs::Stocks_table::stock_found, crate::proofs::Stocks_table::always_sound))]
    pub fn best(&self, stock: Symbol, near: usize, side: u8) -> Option<Resting>
        ensures best { result ≡ best_in self.now stock (is_buy side) }
        ensures sound { IsSound self.now }
    {
        // What this ensures: no two stocks have one name.
        let _ = self.by_stock.len();
        let sides = get_near(&self.by_stock, near, stock)?;
        sides.first(is_buy(side))
    }

    /// Puts the order on its side of its stock, behind all of equal or better price, with all that is open of it. It has
    /// the highest number of its price there, as orders come to rest in the order of their numbers. In a stock that is not
    /// listed nothing rests.
    ///
    /// # Errors
    ///
    /// `OutOfMemory` where there is no memory for one more; then nothing has changed.
    #[tactic(auto, using(crate::proofs::Stocks_table::side_found))]
    pub fn rest(&mut self, order: &LiveOrder, near: usize) -> Result<(), OutOfMemory>
        requires latest { IsLatest (resting_of order.now) (own_side self.old order.now) }
        ensures ok { OnOk result (self.new ≡ put_to_rest order.now self.old) }
        ensures err { OnErr result (self.new ≡ self.old) }
    {
        let Some(sides) = get_mut_near(&mut self.by_stock, near, order.terms.stock) else {
            return Ok(());
        };
        sides.put(is_buy(order.terms.side), order)?;
        Ok(())
    }

    /// Takes so many shares from the best order on a side of the stock. It stays where it stands, or goes where none are
    /// left of it.
    pub fn take_from_best(&mut self, stock: Symbol, near: usize, side: u8, shares: u32)
        ensures { self.new ≡ taken_from_best stock (is_buy side) shares self.old }
    {
        let Some(sides) = get_mut_near(&mut self.by_stock, near, stock) else {
            return;
        };
        sides.take_from_first(is_buy(side), shares);
    }

    /// Takes so many shares from the order, of which all rests that is open, if it rests. It stays where it stands, or
    /// goes where none are left.
    pub fn reduce(&mut self, order: &LiveOrder, near: usize, shares: u32)
        ensures { self.new ≡ with_fewer_shares order.now shares self.old }
    {
        let Some(sides) = get_mut_near(&mut self.by_stock, near, order.terms.stock) else {
            return;
        };
        sides.reduce(is_buy(order.terms.side), order, shares);
    }

    /// Takes the order out, and answers what rested of it; `None` where it does not rest.
    #[tactic(auto, using(crate::proofs::Stocks_table::side_found, crate::proofs::Stocks_table::none_found))]
    pub fn remove(&mut self, order: &LiveOrder, near: usize) -> Option<Resting>
        ensures given { result ≡ found_in self.old order.now }
        ensures removed { self.new ≡ taken_out order.now self.old }
        ensures counted { length (all_orders self.new) + (if is_some result then 1 else 0)
            ≡ length (all_orders self.old) }
    {
        let sides = get_mut_near(&mut self.by_stock, near, order.terms.stock)?;
        sides.remove(is_buy(order.terms.side), order)
    }

    /// Takes the account's orders out, and answers how many rested; all others stay in their order. Its live orders are
    /// named one by one, of which it looks for no other. The count ends at the greatest number of its type.
    pub fn remove_account(&mut self, account: AccountName, orders: LiveOrders<'_>) -> u64
        requires all { AreAllOf account orders self.old }
        ensures removed { self.new ≡ on_each_side (without_account account) self.old }
        ensures counted { result ≡ min (count_of account self.old) 18446744073709551615 }
    {
        // The account is there for contracts alone: what is named is its.
        let _ = account;
        let mut count: u64 = 0;
        for order in orders {
            if self.remove(order, 0).is_some() {
                count = count.saturating_add(1);
            }
        }
        count
    }

    /// Takes all orders out; the stocks stay.
    pub fn remove_all(&mut self)
        ensures { self.new ≡ on_each_side no_orders self.old }
    {
        self.by_stock.retain(|_, sides| {
            sides.remove_all();
            true
        });
    }

    /// Lets it go. Its drop is proved here once, and not in each crate that owns one.
    pub fn release(self) {}
}
