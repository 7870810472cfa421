//! The groups of accounts that count together for a rule.

ghost use Rattle.std.specs.Prelude.{◌≡◌, ◌∷◌, [], map, option_copied, slice_get, unwrap_or, None, IfOk, IsTrue};
ghost use Rattle.gx_policy.specs.Soundness.{stocks_differ};
ghost use Rattle.gx_ledger.specs.{Accounts.account_names, Running.changed_group, Tallies.{changed_at, new_group, new_groups, place_in, seat_for, seats_for}};

use crate::change::Change;
use crate::figure_kind::FigureKind;
use crate::group::Group;
use gx_policy::{Account, Count, Scope, Stock};
use gx_units::{AccountName, OutOfMemory};
use indexmap::IndexSet;
use std::alloc::Global;
use std::marker::Model;

/// The groups of a rule: one for each account of the policy, in its order, one for all in scope, or
/// none.
#[derive(Drop)]
pub struct Groups {
    items: Vec<Group>,
}

impl Model for Groups {
    ghost use Rattle.std.specs.Prelude.{List};
    ghost use Rattle.gx_ledger.specs.declared.group.Group.{Group};

    ghost Value = { List Group };

    ghost view = { λ list. list.items.items };
}

impl Groups {
    fn none(alloc: Global) -> Groups
        ensures { result ≡ [] }
    {
        Groups {
            items: Vec::new(alloc),
        }
    }

    fn each(
        alloc: Global,
        asks: FigureKind,
        accounts: &[Account],
        stocks: &[Stock],
    ) -> Result<Groups, OutOfMemory>
        requires { IsTrue (stocks_differ stocks.now) }
        ensures { IfOk result (λ groups. groups
            ≡ map (λ a. new_group asks stocks.now) accounts.now) }
    {
        let mut items = Vec::new(alloc);
        for _account in accounts {
            items.push(Group::new(alloc, asks, stocks)?)?;
        }
        Ok(Groups { items })
    }

    fn together(alloc: Global, asks: FigureKind, stocks: &[Stock]) -> Result<Groups, OutOfMemory>
        requires { IsTrue (stocks_differ stocks.now) }
        ensures { IfOk result (λ groups. groups ≡ new_group asks stocks.now ∷ []) }
    {
        let mut items = Vec::new(alloc);
        items.push(Group::new(alloc, asks, stocks)?)?;
        Ok(Groups { items })
    }

    /// The groups before any order.
    ///
    /// # Errors
    ///
    /// `OutOfMemory` where memory was refused.
    pub fn of(
        alloc: Global,
        count: Option<Count>,
        asks: FigureKind,
        accounts: &[Account],
        stocks: &[Stock],
    ) -> Result<Groups, OutOfMemory>
        requires { IsTrue (stocks_differ stocks.now) }
        ensures { IfOk result
            (λ groups. groups ≡ new_groups count asks accounts.now stocks.now) }
    {
        match count {
            None => Ok(Groups::none(alloc)),
            Some(Count::Each) => Groups::each(alloc, asks, accounts, stocks),
            Some(Count::Together) => Groups::together(alloc, asks, stocks),
        }
    }

    /// Tells the group at this place, if there is one, of a change of an order of its accounts. Its stock is looked for
    /// at `near` first.
    #[inline(always)]
    pub fn note(&mut self, place: usize, change: &Change<'_>, near: usize)
        ensures { self.new ≡ changed_at place (changed_group change.now) self.old }
    {
        if place < self.items.len() {
            self.items[place].note(change, near);
        }
    }

    /// The group at this place.
    pub fn at(&self, place: usize) -> Option<&Group>
        ensures { option_copied result ≡ slice_get self.now place }
    {
        self.items.get(place)
    }
}

/// The place of the group of an account in scope, which has this place in the policy.
pub fn place_in(count: Option<Count>, place: Option<usize>) -> Option<usize>
    ensures { result ≡ place_in count place }
{
    match count {
        None => None,
        Some(Count::Each) => place,
        Some(Count::Together) => Some(0),
    }
}

/// Where figures are asked for, of an account that has this place in the policy: the place of its group, or any where
/// the rule counts nothing; None outside the scope.
fn seat_for(
    scope: &Scope,
    count: Option<Count>,
    account: AccountName,
    place: Option<usize>,
) -> Option<usize>
    ensures { result ≡ seat_for scope.now count account place }
{
    if !scope.covers(account) {
        return None;
    }
    match count {
        None => Some(0),
        Some(count) => place_in(Some(count), place),
    }
}

/// For each account of the policy, in its order, where its group stands, so that a scope is looked through once a day;
/// None outside the scope.
#[derive(Drop)]
pub struct Seats {
    items: Vec<Option<usize>>,
}

impl Model for Seats {
    ghost use Rattle.std.specs.Prelude.{List, Option, ℕ};

    ghost Value = { List (Option ℕ) };

    ghost view = { λ seats. seats.items.items };
}

impl Seats {
    /// The seats under a rule of this scope, for these accounts of the policy, whose names these are.
    ///
    /// # Errors
    ///
    /// `OutOfMemory` where memory was refused.
    pub fn of(
        alloc: Global,
        scope: &Scope,
        count: Option<Count>,
        names: &IndexSet<AccountName>,
        accounts: &[Account],
    ) -> Result<Seats, OutOfMemory>
        requires { names.now.keys ≡ account_names accounts.now }
        ensures { IfOk result
            (λ seats. seats ≡ seats_for scope.now count (account_names accounts.now)) }
    {
        let mut items = Vec::new(alloc);
        for account in accounts {
            let place = names.get_index_of(&account.name);
            items.push(seat_for(scope, count, account.name, place))?;
        }
        Ok(Seats { items })
    }

    /// That of the account at this place of the policy.
    #[inline(always)]
    pub fn at(&self, place: usize) -> Option<usize>
        ensures { result ≡ unwrap_or (slice_get self.now place) None }
    {
        match self.items.get(place) {
            Some(found) => *found,
            None => None,
        }
    }
}
