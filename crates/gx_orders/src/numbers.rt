//! Which orders each account has.

ghost use Rattle.std.specs.{Prelude.{◌≡◌, ◌<◌, ◌∷◌, ◌++◌, [], IfOk, OnOk}, List.filter, Vec.{vec_capacity, vec_len}};
ghost use Rattle.gx_slab.specs.Slabs.{numbered_of};
ghost use Rattle.gx_orders.specs.{LiveOrders.AreBelow, Tables.{ListsNone, ListsOneMore, ListsTheSame, NumbersBelow, NumbersUpTo, is_live_of, listed_of}};

use gx_history::live_order::LiveOrder;
use gx_index::get_mut_near;
use gx_policy::Account;
use gx_slab::table::Table;
use gx_units::{AccountName, OutOfMemory};
use indexmap::IndexMap;
use std::alloc::Global;
use std::marker::Model;

/// So many numbers have room from the first on, shared by the accounts: a list that grows moves all that it holds.
const FIRST_NUMBERS: usize = 16_384;

/// A list that grows has room for more than so many further numbers then.
const FEWEST: usize = 31;

/// Takes out the numbers of orders that have ended.
#[inline(never)]
fn sweep(items: &mut Vec<u64>, account: AccountName, table: &Table)
    ensures { items.new.items ≡ filter (is_live_of account table.now) items.old.items }
{
    items.retain(|number| table.get_of(account, *number).is_some());
}

/// Makes room for the number of this order, above all others: none of them is above the highest.
#[inline(always)]
fn make_room(
    items: &mut Vec<u64>,
    highest: u64,
    order: &LiveOrder,
    table: &Table,
) -> Result<(), OutOfMemory>
    requires last { AreBelow order.now.number table.now }
    requires bound { NumbersUpTo highest items.old.items }
    ensures same { numbered_of order.now.account table.now items.new.items
        ≡ numbered_of order.now.account table.now items.old.items }
    ensures bound { NumbersUpTo highest items.new.items }
    ensures below { OnOk result (NumbersBelow order.now.number items.new.items) }
    ensures room { OnOk result (vec_len items.new < vec_capacity items.new) }
{
    if highest < order.number && items.len() < items.capacity() {
        return Ok(());
    }
    sweep(items, order.account, table);
    items.reserve(items.len().max(FEWEST) + 1)?;
    Ok(())
}

/// The numbers of an account's orders, in the order in which they were entered: of those that live, and of some that have
/// ended. They are swept where there is no room for one more, and are given more room then unless half of it is free: so
/// a number is looked at a few times in all, however many orders there are.
#[derive(Drop)]
pub struct Numbers {
    items: Vec<u64>,
    /// No number is above it.
    highest: u64,
}

impl Model for Numbers {
    ghost use Rattle.std.specs.Prelude.{List, ℕ};
    ghost use Rattle.gx_orders.specs.Tables.{NumbersUpTo};

    ghost Value = { List ℕ };

    ghost view = { λ n. n.items.items };

    ghost invariant = { λ n. NumbersUpTo n.highest n.items.items };
}

impl Numbers {
    /// No number. It takes no memory.
    fn new(alloc: Global) -> Numbers
        ensures { result ≡ [] }
    {
        Numbers {
            items: Vec::new(alloc),
            highest: 0,
        }
    }

    /// No number, and room for so many.
    fn with_room(alloc: Global, room: usize) -> Result<Numbers, OutOfMemory>
        ensures { IfOk result (λ numbers. numbers ≡ []) }
    {
        Ok(Numbers {
            items: Vec::with_capacity(alloc, room)?,
            highest: 0,
        })
    }

    /// The numbers.
    pub(crate) fn as_slice(&self) -> &[u64]
        ensures { result.now ≡ self.now }
    {
        self.items.as_slice()
    }

    /// Puts the number of this order of the account last, which is not live yet, and will be the last that is.
    #[inline(always)]
    fn push(&mut self, order: &LiveOrder, table: &Table) -> Result<(), OutOfMemory>
        requires last { AreBelow order.now.number table.now }
        ensures same { numbered_of order.now.account table.now self.new
            ≡ numbered_of order.now.account table.now self.old }
        ensures more { OnOk result
            (numbered_of order.now.account (table.now ++ order.now ∷ []) self.new
            ≡ numbered_of order.now.account table.now self.old ++ order.now ∷ []) }
    {
        make_room(&mut self.items, self.highest, order, table)?;
        self.items.push_reserved(order.number);
        self.highest = order.number;
        Ok(())
    }
}

/// No order of any of these accounts, in their order, so that each is found in its place.
pub(crate) fn no_lists(
    alloc: Global,
    accounts: &[Account],
) -> Result<IndexMap<AccountName, Numbers>, OutOfMemory>
    ensures { IfOk result (λ lists. ListsNone lists.entries) }
{
    let mut lists = IndexMap::with_capacity(alloc, accounts.len())?;
    let room = FIRST_NUMBERS / accounts.len().max(1);
    for account in accounts {
        lists.insert(account.name, Numbers::with_room(alloc, room)?)?;
    }
    Ok(lists)
}

/// Lists the number of this order, which is not live yet, and will be the last that is. Its account is looked for at this
/// place first.
pub(crate) fn list_number(
    lists: &mut IndexMap<AccountName, Numbers>,
    near: usize,
    order: &LiveOrder,
    table: &Table,
) -> Result<(), OutOfMemory>
    requires last { AreBelow order.now.number table.now }
    ensures same { ListsTheSame table.now lists.old.entries lists.new.entries }
    ensures more { OnOk result
        (ListsOneMore order.now table.now lists.old.entries lists.new.entries) }
{
    if let Some(numbers) = get_mut_near(lists, near, order.account) {
        return numbers.push(order, table);
    }
    let mut numbers = Numbers::new(*lists.allocator());
    numbers.push(order, table)?;
    lists.insert(order.account, numbers)?;
    Ok(())
}

/// The numbers that are listed of the account.
pub(crate) fn numbers_in(lists: &IndexMap<AccountName, Numbers>, account: AccountName) -> &[u64]
    ensures { result.now ≡ listed_of lists.now.entries account }
{
    match lists.get(&account) {
        Some(numbers) => numbers.as_slice(),
        None => &[],
    }
}
