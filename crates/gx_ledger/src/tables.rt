//! The tables of a ledger.

ghost use Rattle.std.specs.Prelude.{◌≡◌, map, None, Some, IfOk, IsTrue};
ghost use Rattle.gx_policy.specs.Soundness.{accounts_differ, stocks_differ};
ghost use Rattle.gx_ledger.specs.{Counts.{noted_in, tally_with}, Accounts.account_names, Keeping.{tallies_after, prices_with, reference_prices}, Tallies.{changed_at, new_tally}};

use crate::change::Change;
use crate::tally::Tally;
use crate::tally_places::CountedAt;
use gx_index::get_mut_near;
use gx_policy::{Account, FileRule, Stock};
use gx_units::{AccountName, OutOfMemory, Symbol};
use indexmap::{IndexMap, IndexSet};
use std::alloc::Global;

/// Sets the last price of the stock, which is looked for at this place first, if it is listed.
pub fn set_price(prices: &mut IndexMap<Symbol, u32>, near: usize, stock: Symbol, price: u32)
    ensures { prices.new.entries ≡ prices_with stock price prices.old.entries }
{
    if let Some(last) = get_mut_near(prices, near, stock) {
        *last = price;
    }
}

/// Tells each rule's tally of a change of an order of an account that is not the policy's. Its stock
/// is looked for at this place first, as by the calls below.
pub fn note_in_all(tallies: &mut [Tally], change: &Change<'_>, near: usize)
    ensures { tallies.new ≡ tallies_after change.now None tallies.old }
{
    for tally in tallies.iter_mut() {
        tally.note(change, None, near);
    }
}

/// Tells the tally at this place, if there is one, of a change of an order of an account in its scope, whose group stands
/// at that place.
#[inline(always)]
fn note_one(tallies: &mut [Tally], index: usize, group: usize, change: &Change<'_>, near: usize)
    ensures { tallies.new ≡ changed_at index (tally_with change.now group) tallies.old }
{
    if index < tallies.len() {
        tallies[index].note_with(change, group, near);
    }
}

/// Tells the tallies at these places of a change of an order of an account in their scopes, which is counted there.
#[inline(always)]
pub fn note_in(tallies: &mut [Tally], places: &[CountedAt], change: &Change<'_>, near: usize)
    ensures { tallies.new ≡ noted_in change.now tallies.old places.now }
{
    for place in places {
        note_one(tallies, place.tally, place.group, change, near);
    }
}

/// The names of the accounts, in the policy's order.
///
/// # Errors
///
/// `OutOfMemory` where memory was refused.
pub fn names_of(alloc: Global, accounts: &[Account]) -> Result<IndexSet<AccountName>, OutOfMemory>
    requires { IsTrue (accounts_differ accounts.now) }
    ensures { IfOk result (λ names. names.keys ≡ account_names accounts.now) }
{
    let mut names = IndexSet::new(alloc);
    for account in accounts {
        names.insert(account.name)?;
    }
    Ok(names)
}

/// The stocks at their reference prices.
///
/// # Errors
///
/// `OutOfMemory` where memory was refused.
pub fn first_prices(alloc: Global, stocks: &[Stock]) -> Result<IndexMap<Symbol, u32>, OutOfMemory>
    requires { IsTrue (stocks_differ stocks.now) }
    ensures { IfOk result (λ prices. prices.entries ≡ reference_prices stocks.now) }
{
    let mut prices = IndexMap::new(alloc);
    for stock in stocks {
        prices.insert(stock.name, stock.reference)?;
    }
    Ok(prices)
}

/// What each rule counts, before any order; these are the names of the accounts.
///
/// # Errors
///
/// `OutOfMemory` where memory was refused.
pub fn first_tallies(
    alloc: Global,
    rules: &[FileRule],
    names: &IndexSet<AccountName>,
    accounts: &[Account],
    stocks: &[Stock],
) -> Result<Vec<Tally>, OutOfMemory>
    requires named { names.now.keys ≡ account_names accounts.now }
    requires differ { IsTrue (stocks_differ stocks.now) }
    ensures { IfOk result
        (λ tallies. tallies.items ≡ map (new_tally accounts.now stocks.now) rules.now) }
{
    let mut tallies = Vec::new(alloc);
    for rule in rules {
        tallies.push(Tally::new(alloc, rule, names, accounts, stocks)?)?;
    }
    Ok(tallies)
}
