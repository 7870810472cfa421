//! What one rule of the file counts.

ghost use Rattle.std.specs.{Prelude.{◌≡◌, nat_le, option_copied, IfOk, IsTrue}, Option.option_map_or};
ghost use Rattle.gx_history.specs.Figures.{gross_shares_in, gross_value_in, net_shares_in};
ghost use Rattle.gx_ledger.specs.declared.group.Group.TheVariants as groups;
ghost use Rattle.gx_policy.specs.Soundness.{stocks_differ};
ghost use Rattle.gx_ledger.specs.{Counts.{counts, group_place, tally_inside, tally_with}, Accounts.account_names, Running.count_alike, Tallies.{figures_of_group, group_asked, group_in, net_sums_in, new_tally, seat_of, tally_after, tally_figures, tells_reference}, Standing.{gross_in_group, group_with, net_in_group, tally_gross, tally_net}};

use crate::change::Change;
use crate::enters::Enters;
use crate::figure_kind::{FigureKind, count_of};
use crate::group::{Group, RepeatKey};
use crate::groups::{Groups, Seats, place_in};
use crate::sides::{Sides, net_of};
use crate::sums::{NetSums, Sums};
use gx_history::facts::{GrossFigures, NetFigures, StockSide};
use gx_policy::{Account, Count, FileRule, Scope, Stock};
use gx_units::{AccountName, OutOfMemory};
use indexmap::IndexSet;
use std::alloc::Global;

/// What a rule asks for, for which accounts, and the running figures of their groups.
#[derive(Drop)]
pub struct Tally {
    /// The accounts that the rule is for.
    pub scope: Scope,
    /// Whether it asks for the last price of the stock.
    pub tells_reference: bool,
    /// Whether its limit is for each account or for all together; None where it counts no accounts.
    pub count: Option<Count>,
    /// Where the groups of the policy's accounts stand.
    pub seats: Seats,
    /// The running figures: of each account, or of all together.
    pub groups: Groups,
}

/// What a request asks the figures for.
#[derive(Clone, Copy)]
pub struct FigureQuery {
    /// The place in the policy of the account that the user trades for.
    pub place: Option<usize>,
    /// What an Enter has in common with like ones.
    pub entered: Option<RepeatKey>,
    /// The open shares of the order that would be replaced.
    pub replaced_shares: u128,
    /// Their value at its price, in ten-thousandths of a dollar.
    pub replaced_value: u128,
    /// The side of the stock that the order is for.
    pub side: Option<StockSide>,
    /// Where that stock is looked for first.
    pub near: usize,
    /// The price of the last fill in the order's stock, or the policy's.
    pub reference: u32,
    /// When it is asked for, in nanoseconds past midnight.
    pub moment: u64,
}

/// What a group has on a side of a stock, which is looked for at this place first.
fn net_sums_in(sides: &Sides, side: StockSide, near: usize) -> NetSums
    ensures { result ≡ net_sums_in sides.now side }
{
    let sums = sides.at(side.stock, near);
    let own = sums.on_side(side.buys);
    NetSums {
        done: net_of(own.done, sums.on_side(!side.buys).done),
        live: own.live,
    }
}

/// Whether the Enters that are such as the one asked for come to the limit.
#[inline(always)]
fn are_alike(enters: &Enters, asked: Option<RepeatKey>, limit: u64) -> bool
    ensures { result ≡ nat_le limit (option_map_or (count_alike enters.now.items) asked 0) }
{
    match asked {
        Some(asked) => enters.are_alike(&asked, limit),
        None => limit == 0,
    }
}

/// The sums that a gross limit is for.
fn gross_in_group(group: &Group) -> Option<Sums>
    ensures { result ≡ gross_in_group group.now }
{
    match group {
        Group::Shares(sums) | Group::Value(sums) => Some(*sums),
        _ => None,
    }
}

/// What a group has on the side of the stock, where it looks at sides.
fn net_in_group(group: &Group, side: StockSide) -> Option<NetSums>
    ensures { result ≡ net_in_group side group.now }
{
    match group {
        Group::Sides(sides) => Some(net_sums_in(sides, side, 0)),
        _ => None,
    }
}

/// What a net limit compares, of a group that looks at sides.
fn net_figures(sides: &Sides, wanted: &FigureQuery) -> NetFigures
    ensures { result ≡ net_shares_in (figures_of_group wanted.now (groups.Sides sides.now)) }
{
    match wanted.side {
        Some(side) => {
            let sums = net_sums_in(sides, side, wanted.near);
            NetFigures {
                done: sums.done,
                live: sums.live,
                replaced: wanted.replaced_shares,
            }
        }
        None => NetFigures {
            replaced: wanted.replaced_shares,
            ..NetFigures::NONE
        },
    }
}

impl Tally {
    /// The tally of a rule before any order, for these accounts and stocks of the policy; these are the names of the
    /// accounts.
    ///
    /// # Errors
    ///
    /// `OutOfMemory` where memory was refused.
    pub fn new(
        alloc: Global,
        rule: &FileRule,
        names: &IndexSet<AccountName>,
        accounts: &[Account],
        stocks: &[Stock],
    ) -> Result<Tally, OutOfMemory>
        requires named { names.now.keys ≡ account_names accounts.now }
        requires differ { IsTrue (stocks_differ stocks.now) }
        ensures { IfOk result (λ tally. tally ≡ new_tally accounts.now stocks.now rule.now) }
    {
        let asks = FigureKind::of(&rule.kind);
        let count = count_of(&rule.kind);
        let seats = Seats::of(alloc, &rule.scope, count, names, accounts)?;
        let groups = Groups::of(alloc, count, asks, accounts, stocks)?;
        let scope = rule.scope.copied(alloc)?;
        Ok(Tally {
            scope,
            tells_reference: matches!(asks, FigureKind::Reference),
            count,
            seats,
            groups,
        })
    }

    /// Takes note of a change of an order of the account that has this place in the policy. Its stock is looked for at
    /// `near` first.
    pub fn note(&mut self, change: &Change<'_>, place: Option<usize>, near: usize)
        ensures { self.new ≡ tally_after change.now place self.old }
    {
        if self.scope.covers(change.order.account) {
            self.note_inside(change, place, near);
        }
    }

    /// The same of an account in scope.
    #[inline(always)]
    pub fn note_inside(&mut self, change: &Change<'_>, place: Option<usize>, near: usize)
        ensures { self.new ≡ tally_inside change.now place self.old }
    {
        if let Some(place) = place_in(self.count, place) {
            self.groups.note(place, change, near);
        }
    }

    /// The same of an account in scope whose group stands at this place.
    #[inline(always)]
    pub fn note_with(&mut self, change: &Change<'_>, group: usize, near: usize)
        ensures { self.new ≡ tally_with change.now group self.old }
    {
        self.groups.note(group, change, near);
    }

    /// The place of the group of an account in scope, which has this place in the policy; 0 where the rule counts nothing.
    pub fn group_place(&self, own: Option<usize>) -> usize
        ensures { result ≡ group_place self.now own }
    {
        place_in(self.count, own).unwrap_or(0)
    }

    /// Whether the rule counts the orders of the account.
    pub fn counts(&self, account: AccountName) -> bool
        ensures { result ≡ counts self.now account }
    {
        self.count.is_some() && self.scope.covers(account)
    }

    /// The group of an account in scope, which has this place in the policy.
    fn group(&self, place: Option<usize>) -> Option<&Group>
        ensures { option_copied result ≡ group_in self.now place }
    {
        match place_in(self.count, place) {
            Some(place) => self.groups.at(place),
            None => None,
        }
    }

    /// The group that the rule counts the account in, which has this place in the policy.
    fn group_with(&self, account: AccountName, place: Option<usize>) -> Option<&Group>
        ensures { option_copied result ≡ group_with self.now account place }
    {
        if place.is_some() && self.scope.covers(account) {
            self.group(place)
        } else {
            None
        }
    }

    /// What a gross limit counts for the account, which has this place in the policy. None for any other rule, or where
    /// it does not count the account.
    pub fn gross(&self, account: AccountName, place: Option<usize>) -> Option<Sums>
        ensures { result ≡ tally_gross self.now account place }
    {
        match self.group_with(account, place) {
            Some(group) => gross_in_group(group),
            None => None,
        }
    }

    /// What the rule counts for the account on the side of the stock. None where it does not look at
    /// sides, or not for the account.
    pub fn net(
        &self,
        account: AccountName,
        place: Option<usize>,
        side: StockSide,
    ) -> Option<NetSums>
        ensures { result ≡ tally_net self.now account place side }
    {
        match self.group_with(account, place) {
            Some(group) => net_in_group(group, side),
            None => None,
        }
    }

    /// The place of the group of the account at this place of the policy; None outside the scope.
    #[inline(always)]
    fn seat_of(&self, place: Option<usize>) -> Option<usize>
        ensures { result ≡ seat_of self.now place }
    {
        match place {
            Some(place) => self.seats.at(place),
            None => None,
        }
    }

    /// The group that counts the account which asks; None where the rule does not count it, or has no such group.
    #[inline(always)]
    fn group_asked(&self, wanted: &FigureQuery) -> Option<&Group>
        ensures { option_copied result ≡ group_asked wanted.now self.now }
    {
        match self.seat_of(wanted.place) {
            Some(seat) => self.groups.at(seat),
            None => None,
        }
    }

    /// The figures of a gross limit on shares.
    #[inline(always)]
    pub fn gross_shares(&self, wanted: &FigureQuery) -> GrossFigures
        ensures { result ≡ gross_shares_in (tally_figures wanted.now self.now) }
    {
        match self.group_asked(wanted) {
            Some(Group::Shares(sums)) => GrossFigures {
                live: sums.live,
                done: sums.done,
                replaced: wanted.replaced_shares,
            },
            Some(Group::Sides(_)) => GrossFigures {
                replaced: wanted.replaced_shares,
                ..GrossFigures::NONE
            },
            _ => GrossFigures::NONE,
        }
    }

    /// The figures of a gross limit on value.
    #[inline(always)]
    pub fn gross_value(&self, wanted: &FigureQuery) -> GrossFigures
        ensures { result ≡ gross_value_in (tally_figures wanted.now self.now) }
    {
        match self.group_asked(wanted) {
            Some(Group::Value(sums)) => GrossFigures {
                live: sums.live,
                done: sums.done,
                replaced: wanted.replaced_value,
            },
            _ => GrossFigures::NONE,
        }
    }

    /// The figures of a net limit.
    pub fn net_shares(&self, wanted: &FigureQuery) -> NetFigures
        ensures { result ≡ net_shares_in (tally_figures wanted.now self.now) }
    {
        match self.group_asked(wanted) {
            Some(Group::Sides(sides)) => net_figures(sides, wanted),
            Some(Group::Shares(_)) => NetFigures {
                replaced: wanted.replaced_shares,
                ..NetFigures::NONE
            },
            _ => NetFigures::NONE,
        }
    }

    /// Whether the recent orders that the rule counts come to the limit.
    #[inline(always)]
    pub fn has_recent(&self, wanted: &FigureQuery, limit: u64) -> bool
        ensures { result ≡ nat_le limit (tally_figures wanted.now self.now).recent }
    {
        match self.group_asked(wanted) {
            Some(Group::Recent { window, moments }) => {
                moments.are_recent(*window, wanted.moment, limit)
            }
            _ => limit == 0,
        }
    }

    /// Whether the last Enters that the rule counts and that are such as the request come to the limit.
    #[inline(always)]
    pub fn has_equal_recent(&self, wanted: &FigureQuery, limit: u64) -> bool
        ensures { result ≡ nat_le limit (tally_figures wanted.now self.now).equal_recent }
    {
        match self.group_asked(wanted) {
            Some(Group::Enters(enters)) => are_alike(enters, wanted.entered, limit),
            _ => limit == 0,
        }
    }

    /// The price that a collar is around.
    #[inline(always)]
    pub fn reference(&self, wanted: &FigureQuery) -> u32
        ensures { result ≡ (tally_figures wanted.now self.now).reference }
    {
        if self.tells_reference && self.seat_of(wanted.place).is_some() {
            wanted.reference
        } else {
            0
        }
    }
}
