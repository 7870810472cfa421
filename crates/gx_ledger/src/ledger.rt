//! The running figures of a day.

ghost use Rattle.std.specs.{Prelude.{◌≡◌, IfOk, option_and_then, slice_get}, Option.option_map_or};
ghost use Rattle.gx_history.specs.{Figures.{open_value, side_asked}, LiveOrders.shares_open};
ghost use Rattle.gx_laws.specs.Changing.{no_positions};
ghost use Rattle.gx_ledger.specs.{Accounts.account_place, Keeping.{data_after, price_of, reference_for, with_price}, Running.asked_as, StandsFor.{Accepts, Closes, Cuts, Fills, GivesFigures, StandsFor}, Standing.{GivesGross, GivesNet, tally_gross, tally_net}, FiguresAsked.figures_at};

use crate::change::{Change, ChangeKind};
use crate::group::RepeatKey;
use crate::sums::{NetSums, Sums};
use crate::tables::{first_prices, first_tallies, names_of, note_in, note_in_all, set_price};
use crate::tally::{FigureQuery, Tally};
use crate::tally_places::{TallyPlaces, counting_by_account};
use gx_history::facts::{GrossFigures, NetFigures, StockSide, TellsFigures};
use gx_history::live_order::LiveOrder;
use gx_history::record::Request;
use gx_index::{Near, get_near, place_near};
use gx_policy::Policy;
use gx_units::{AccountName, Moment, OutOfMemory, Symbol, value_of};
use indexmap::{IndexMap, IndexSet};
use std::alloc::Global;
use std::marker::Model;

/// The last price of each stock, and what each rule of the file counts, by the places of accounts
/// in the policy.
#[derive(Drop)]
pub struct Ledger {
    accounts: IndexSet<AccountName>,
    prices: IndexMap<Symbol, u32>,
    tallies: Vec<Tally>,
    /// For each account, by its place, where its orders are counted.
    counting: Vec<TallyPlaces>,
}

impl Model for Ledger {
    ghost use Rattle.gx_ledger.specs.Keeping.{LedgerData};
    ghost use Rattle.gx_ledger.specs.Counts.{AreCounted};

    ghost Value = { LedgerData };

    ghost view = { λ ledger. record {
      accounts = ledger.accounts.keys;
      prices = ledger.prices.entries;
      tallies = ledger.tallies.items;
    } };

    ghost invariant = { λ ledger.
        AreCounted ledger.accounts.keys ledger.tallies.items ledger.counting.items };
}

/// The figures of each rule for one request, told as they are asked.
#[derive(Drop)]
pub struct AskedFigures<'a> {
    tallies: &'a [Tally],
    wanted: FigureQuery,
}

impl<'a> Model for AskedFigures<'a> {
    ghost use Rattle.gx_ledger.specs.FiguresAsked.{Asking};

    ghost Value = { Asking };

    ghost view = { λ asked. record { tallies = asked.tallies.now; wanted = asked.wanted } };
}

impl TellsFigures for AskedFigures<'_> {
    ghost told = { figures_at };

    #[inline(always)]
    fn gross_shares(&self, place: usize) -> GrossFigures {
        match self.tallies.get(place) {
            Some(tally) => tally.gross_shares(&self.wanted),
            None => GrossFigures::NONE,
        }
    }

    #[inline(always)]
    fn gross_value(&self, place: usize) -> GrossFigures {
        match self.tallies.get(place) {
            Some(tally) => tally.gross_value(&self.wanted),
            None => GrossFigures::NONE,
        }
    }

    #[inline(always)]
    fn net_shares(&self, place: usize) -> NetFigures {
        match self.tallies.get(place) {
            Some(tally) => tally.net_shares(&self.wanted),
            None => NetFigures::NONE,
        }
    }

    #[inline(always)]
    fn has_recent(&self, place: usize, limit: u64) -> bool {
        match self.tallies.get(place) {
            Some(tally) => tally.has_recent(&self.wanted, limit),
            None => limit == 0,
        }
    }

    #[inline(always)]
    fn has_equal_recent(&self, place: usize, limit: u64) -> bool {
        match self.tallies.get(place) {
            Some(tally) => tally.has_equal_recent(&self.wanted, limit),
            None => limit == 0,
        }
    }

    #[inline(always)]
    fn reference(&self, place: usize) -> u32 {
        match self.tallies.get(place) {
            Some(tally) => tally.reference(&self.wanted),
            None => 0,
        }
    }
}

impl Ledger {
    /// The ledger of a day under the policy, before any order.
    ///
    /// # Errors
    ///
    /// `OutOfMemory` where its tables were refused their memory.
    pub fn new(alloc: Global, policy: &Policy) -> Result<Ledger, OutOfMemory>
        ensures stands { IfOk result (λ ledger. StandsFor policy.now ledger no_positions) }
    {
        let rules = policy.rules();
        let accounts = names_of(alloc, policy.accounts())?;
        let tallies = first_tallies(alloc, rules, &accounts, policy.accounts(), policy.stocks())?;
        let prices = first_prices(alloc, policy.stocks())?;
        let counting = counting_by_account(
            alloc,
            &accounts,
            tallies.as_slice(),
            policy.accounts(),
        )?;
        Ok(Ledger {
            accounts,
            prices,
            tallies,
            counting,
        })
    }

    /// Takes note of an order that was granted at the moment, to a Replace or to an Enter. Its names are looked for at
    /// these places first, as by each of the calls below.
    pub fn accept(&mut self, order: &LiveOrder, near: Near, moment: Moment, replacement: bool)
        ensures accepted { Accepts order.now moment replacement self.old self.new }
    {
        self.note(
            order,
            near,
            ChangeKind::Accepted {
                moment,
                replacement,
            },
        );
    }

    /// Takes note of a fill between two live orders, at this price.
    pub fn fill(
        &mut self,
        taker: &LiveOrder,
        near_taker: Near,
        maker: &LiveOrder,
        near_maker: Near,
        shares: u32,
        price: u32,
    )
        ensures filled { Fills taker.now maker.now shares price self.old self.new }
    {
        let filled = ChangeKind::Filled { shares, price };
        self.note(taker, near_taker, filled);
        self.note(maker, near_maker, filled);
        self.set_price(maker.terms.stock, near_maker.stock, price);
    }

    /// Takes note that so many of a live order's open shares are open no more.
    pub fn cut(&mut self, order: &LiveOrder, near: Near, shares: u32)
        ensures cut { Cuts order.now shares self.old self.new }
    {
        self.note(order, near, ChangeKind::Left(shares));
    }

    /// Takes note that a live order ended: none of its shares is open.
    pub fn close(&mut self, order: &LiveOrder, near: Near)
        ensures closed { Closes order.now self.old self.new }
    {
        self.note(order, near, ChangeKind::Left(order.open()));
    }

    /// The figures for a request of the account at the moment, which may replace a live order.
    pub fn after(
        &self,
        account: AccountName,
        request: &Request,
        near: Near,
        replaced: Option<LiveOrder>,
        moment: u64,
    ) -> AskedFigures<'_>
        ensures figures { GivesFigures self.now account request.now replaced moment result }
    {
        let wanted = FigureQuery {
            place: self.place(account, near.account),
            entered: asked_as(request),
            replaced_shares: open_of(replaced),
            replaced_value: open_value_of(replaced),
            side: side_of(request, replaced),
            near: near.stock,
            reference: self.reference(request, near, replaced),
            moment,
        };
        AskedFigures {
            tallies: &self.tallies,
            wanted,
        }
    }

    /// What is open and executed, of the accounts that the gross rule at this place in the file, the first
    /// at 0, counts together with this one: it alone, or all of the rule's scope. In shares or in value, as
    /// its limit is. None for any other rule, where the rule is not for the account, or where the policy has no
    /// such rule or account.
    pub fn gross(&self, rule: usize, account: AccountName) -> Option<Sums>
        ensures gross { GivesGross self.now rule account result }
    {
        gross_at(&self.tallies, rule, account, self.place(account, 0))
    }

    /// What these accounts have on the side of the stock, where the rule limits net positions. None
    /// for any other rule.
    pub fn net(&self, rule: usize, account: AccountName, side: StockSide) -> Option<NetSums>
        ensures net { GivesNet self.now rule account side result }
    {
        net_at(&self.tallies, rule, account, self.place(account, 0), side)
    }

    /// The place of the account in the policy, which is looked for at this one first.
    fn place(&self, account: AccountName, near: usize) -> Option<usize>
        ensures { result ≡ account_place self.now.accounts account }
    {
        place_near(&self.accounts, near, account)
    }

    #[inline(always)]
    fn note(&mut self, order: &LiveOrder, near: Near, kind: ChangeKind)
        ensures { self.new ≡ data_after (record { order = order.now; kind = kind }) self.old }
    {
        let place = self.place(order.account, near.account);
        self.note_at(place, near.stock, &Change { order, kind });
    }

    /// Takes note of a change of an order of the account that has this place in the policy. Its stock is
    /// looked for at `near` first.
    #[inline(always)]
    fn note_at(&mut self, place: Option<usize>, near: usize, change: &Change<'_>)
        requires { place ≡ account_place self.old.accounts change.now.order.account }
        ensures { self.new ≡ data_after change.now self.old }
    {
        let Some(place) = place else {
            return note_in_all(&mut self.tallies, change, near);
        };
        let counting = self.counting[place].as_slice();
        note_in(&mut self.tallies, counting, change, near);
    }

    fn set_price(&mut self, stock: Symbol, near: usize, price: u32)
        ensures { self.new ≡ with_price stock price self.old }
    {
        set_price(&mut self.prices, near, stock, price);
    }

    fn price(&self, stock: Symbol, near: usize) -> u32
        ensures { result ≡ price_of self.now.prices stock }
    {
        get_near(&self.prices, near, stock).copied().unwrap_or(0)
    }

    /// The last price of the stock of the order that is asked for.
    fn reference(&self, request: &Request, near: Near, replaced: Option<LiveOrder>) -> u32
        ensures { result ≡ reference_for self.now.prices request.now replaced }
    {
        let stock = match request {
            Request::Enter(m) => Some(m.stock),
            _ => replaced.map(|order| order.terms.stock),
        };
        match stock {
            Some(stock) => self.price(stock, near.stock),
            None => 0,
        }
    }

    /// Lets it go. Its drop is proved here once, and not in each crate that owns one.
    pub fn release(self) {}
}

/// What the account, which has this place in the policy, has in the tally at a place, of a gross rule.
fn gross_at(
    tallies: &[Tally],
    rule: usize,
    account: AccountName,
    place: Option<usize>,
) -> Option<Sums>
    ensures { result ≡ option_and_then
        (λ tally. tally_gross tally account place) (slice_get tallies.now rule) }
{
    match tallies.get(rule) {
        Some(tally) => tally.gross(account, place),
        None => None,
    }
}

/// The same on the side of a stock.
fn net_at(
    tallies: &[Tally],
    rule: usize,
    account: AccountName,
    place: Option<usize>,
    side: StockSide,
) -> Option<NetSums>
    ensures { result ≡ option_and_then
        (λ tally. tally_net tally account place side) (slice_get tallies.now rule) }
{
    match tallies.get(rule) {
        Some(tally) => tally.net(account, place, side),
        None => None,
    }
}

/// The side of the stock that an Enter is for, or that the order is on that would be replaced.
fn side_of(request: &Request, replaced: Option<LiveOrder>) -> Option<StockSide>
    ensures { result ≡ side_asked request.now replaced }
{
    match request {
        Request::Enter(m) => Some(StockSide {
            stock: m.stock,
            buys: m.side == b'B',
        }),
        _ => replaced.map(|order| StockSide {
            stock: order.terms.stock,
            buys: order.terms.side == b'B',
        }),
    }
}

/// What an Enter would have in common with like ones.
fn asked_as(request: &Request) -> Option<RepeatKey>
    ensures { result ≡ asked_as request.now }
{
    match request {
        Request::Enter(m) => Some(RepeatKey {
            side: m.side,
            shares: m.shares,
            stock: m.stock,
            price: m.price,
        }),
        _ => None,
    }
}

fn open_of(order: Option<LiveOrder>) -> u128
    ensures { result ≡ option_map_or shares_open order 0 }
{
    match order {
        Some(order) => u128::from(order.open()),
        None => 0,
    }
}

fn open_value_of(order: Option<LiveOrder>) -> u128
    ensures { result ≡ option_map_or open_value order 0 }
{
    match order {
        Some(order) => value_of(order.open(), order.terms.price),
        None => 0,
    }
}
