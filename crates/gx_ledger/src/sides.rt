//! Running sums over each side of a stock.

ghost use Rattle.std.specs.Prelude.{◌≡◌, IfOk, IsTrue};
ghost use Rattle.gx_policy.specs.Soundness.{stocks_differ};
ghost use Rattle.gx_ledger.specs.{Running.{changed_sides, first_sides, net_of, noted_sides, on_its_side, sides_at}};

use crate::change::Change;
use crate::sums::Sums;
use gx_index::{get_mut_near, get_near};
use gx_policy::Stock;
use gx_units::{OutOfMemory, Symbol};
use indexmap::IndexMap;
use std::alloc::Global;
use std::marker::Model;

/// What some accounts have on both sides of a stock, in shares.
#[derive(Clone, Copy)]
pub struct StockSums {
    /// Of the buys.
    pub buys: Sums,
    /// Of all that is no buy.
    pub sells: Sums,
}

/// The sums of each stock of the policy, or of none.
#[derive(Drop)]
pub struct Sides {
    sums: IndexMap<Symbol, StockSums>,
}

impl Model for Sides {
    ghost use Rattle.std.specs.Prelude.{List};
    ghost use Rattle.gx_units.specs.declared.names.Symbol.{Symbol};
    ghost use Rattle.gx_ledger.specs.declared.sides.StockSums.{StockSums};

    ghost Value = { List (Symbol × StockSums) };

    ghost view = { λ sides. sides.sums.entries };
}

/// Of no order and no fill, on both sides.
const NO_SIDES: StockSums = StockSums {
    buys: Sums::NONE,
    sells: Sums::NONE,
};

impl StockSums {
    /// Once an order in the stock has changed.
    fn changed(self, change: &Change<'_>) -> StockSums
        ensures { result ≡ changed_sides change.now self }
    {
        if change.order.terms.side == b'B' {
            StockSums {
                buys: self.buys.of_shares_after(change),
                sells: self.sells,
            }
        } else {
            StockSums {
                buys: self.buys,
                sells: self.sells.of_shares_after(change),
            }
        }
    }

    /// Those of buys, or of all others.
    pub fn on_side(self, buys: bool) -> Sums
        ensures { result ≡ on_its_side buys self }
    {
        if buys { self.buys } else { self.sells }
    }
}

/// What was executed on a side, less what was on the other.
pub fn net_of(done: u128, other: u128) -> i128
    ensures { result ≡ net_of done other }
{
    let most = i128::MAX.unsigned_abs();
    let done = done.min(most) as i128;
    let other = other.min(most) as i128;
    done - other
}

/// Takes note of a change of an order, if there are sums of its stock, which is looked for at this place first.
fn note_change(sums: &mut IndexMap<Symbol, StockSums>, change: &Change<'_>, near: usize)
    ensures { sums.new.entries ≡ noted_sides change.now sums.old.entries }
{
    if let Some(found) = get_mut_near(sums, near, change.order.terms.stock) {
        *found = found.changed(change);
    }
}

impl Sides {
    /// Of no order and no fill, for each of the stocks.
    ///
    /// # Errors
    ///
    /// `OutOfMemory` where memory was refused.
    pub fn of(alloc: Global, stocks: &[Stock]) -> Result<Sides, OutOfMemory>
        requires { IsTrue (stocks_differ stocks.now) }
        ensures { IfOk result (λ sides. sides ≡ first_sides stocks.now) }
    {
        let mut sums = IndexMap::new(alloc);
        for stock in stocks {
            sums.insert(stock.name, NO_SIDES)?;
        }
        Ok(Sides { sums })
    }

    /// Takes note of a change of an order of the accounts. Its stock is looked for at this place first, as by `at`.
    pub fn note(&mut self, change: &Change<'_>, near: usize)
        ensures { self.new ≡ noted_sides change.now self.old }
    {
        note_change(&mut self.sums, change, near);
    }

    /// The sums of the stock; 0 where there are none of it.
    pub fn at(&self, stock: Symbol, near: usize) -> StockSums
        ensures { result ≡ sides_at self.now stock }
    {
        get_near(&self.sums, near, stock)
            .copied()
            .unwrap_or(NO_SIDES)
    }
}
