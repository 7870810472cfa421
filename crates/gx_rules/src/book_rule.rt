//! A rule as the book keeps it.

ghost use Rattle.gx_policy.specs.{Kinds.{limit_of, stocks_of, with_limit, with_stocks}, Lists.are_distinct};
ghost use Rattle.std.specs.{Prelude.{◌≡◌, [], false, is_some, IsTrue, IfOk, OnOk, OnErr}, Option.option_map_or};
ghost use Rattle.gx_units.specs.Names.{same_stock};
ghost use Rattle.gx_history.specs.{InForce.{with_stock, lists_stock, without_stock}, Rules.{kind_forbids, rule_forbids}};
ghost use Rattle.gx_rules.specs.Books.{book_kind, lists_once, rule_named};

use crate::file_rule::{is_for_scope, is_gross_above, is_net_above, is_outside_collar, new_open};
use crate::request::proposed;
use gx_history::facts::{Facts, ProposedOrder, TellsFigures};
use gx_history::record::Request;
use gx_policy::{ExposureLimit, FileRule, OrderLimit, PlainKind, RuleKind, Scope, Symbols};
use gx_units::{OutOfMemory, RuleId, Symbol, value_of};
use indexmap::IndexSet;
use std::alloc::Global;

/// What a rule forbids and whom. Its kind has no stocks: those of a halt or a restriction stand in a set of their own,
/// where a stock is found without a walk.
#[derive(Drop)]
pub struct BookRule {
    /// What it forbids, with no stocks in it.
    pub kind: RuleKind,
    /// The stocks on its list; none where its kind has no list.
    pub stocks: IndexSet<Symbol>,
    /// The accounts that it is for.
    pub scope: Scope,
}

/// The kind with no stocks on its list.
fn kind_alone(alloc: Global, kind: &RuleKind) -> RuleKind
    ensures { result ≡ with_stocks (λ listed. []) kind.now }
{
    match kind {
        RuleKind::Listed(kind, _) => RuleKind::Listed(*kind, Symbols::new(Vec::new(alloc))),
        RuleKind::Plain(kind) => RuleKind::Plain(*kind),
        RuleKind::Order(kind, limit) => RuleKind::Order(*kind, *limit),
        RuleKind::Exposure(kind, limit, count) => RuleKind::Exposure(*kind, *limit, *count),
        RuleKind::Rate(rate, count) => RuleKind::Rate(*rate, *count),
        RuleKind::Repeat(repeat, count) => RuleKind::Repeat(*repeat, *count),
    }
}

fn set_of(alloc: Global, stocks: &[Symbol]) -> Result<IndexSet<Symbol>, OutOfMemory>
    requires { IsTrue (are_distinct same_stock stocks.now) }
    ensures { IfOk result (λ set. set.keys ≡ stocks.now) }
{
    let mut set = IndexSet::new(alloc);
    for stock in stocks {
        set.insert(*stock)?;
    }
    Ok(set)
}

/// A set of so many stocks and fewer is walked: that costs less than to look one up by its hash.
const FEW_STOCKS: usize = 8;

/// Whether the stock is in the set.
fn is_among(stocks: &IndexSet<Symbol>, stock: Symbol) -> bool
    ensures { result ≡ lists_stock stocks.now.keys stock }
{
    let listed = stocks.as_slice();
    if listed.len() <= FEW_STOCKS {
        listed.iter().any(|one| *one == stock)
    } else {
        stocks.contains(&stock)
    }
}

impl BookRule {
    /// The rule of the policy file. `OutOfMemory` where memory was refused.
    pub fn new(alloc: Global, rule: &FileRule) -> Result<BookRule, OutOfMemory>
        requires { IsTrue (lists_once rule.now) }
        ensures { IfOk result (λ r. rule_named rule.now.name r ≡ rule.now) }
    {
        let stocks = set_of(alloc, rule.kind.stocks())?;
        let scope = rule.scope.copied(alloc)?;
        let kind = kind_alone(alloc, &rule.kind);
        Ok(BookRule {
            kind,
            stocks,
            scope,
        })
    }

    /// The limit that Set Limit may change; None where the kind has none.
    pub fn limit(&self) -> Option<u64>
        ensures { result ≡ limit_of (book_kind self.now) }
    {
        self.kind.limit()
    }

    /// Puts this limit in force; nothing changes where the kind has none.
    pub fn set_limit(&mut self, value: u64)
        ensures kind { book_kind self.new ≡ with_limit value (book_kind self.old) }
        ensures scope { self.new.scope ≡ self.old.scope }
    {
        match &mut self.kind {
            RuleKind::Order(_, limit) => *limit = value,
            RuleKind::Exposure(_, limit, _) => *limit = value,
            RuleKind::Listed(_, _)
            | RuleKind::Plain(_)
            | RuleKind::Rate(_, _)
            | RuleKind::Repeat(_, _) => {}
        }
    }

    /// Whether the rule has a list of stocks.
    pub fn has_list(&self) -> bool
        ensures own { result ≡ is_some (stocks_of self.now.kind) }
        ensures with_stocks { result ≡ is_some (stocks_of (book_kind self.now)) }
    {
        matches!(self.kind, RuleKind::Listed(_, _))
    }

    /// Whether the stock is on the rule's list.
    pub fn lists(&self, stock: Symbol) -> bool
        ensures { result ≡ option_map_or (λ stocks. lists_stock stocks stock)
            (stocks_of (book_kind self.now)) false }
    {
        self.has_list() && is_among(&self.stocks, stock)
    }

    /// Puts the stock on the rule's list, if it has one.
    ///
    /// # Errors
    ///
    /// `OutOfMemory` where memory was refused; then nothing has changed.
    pub fn restrict(&mut self, stock: Symbol) -> Result<(), OutOfMemory>
        ensures kind { OnOk result (book_kind self.new
            ≡ with_stocks (with_stock stock) (book_kind self.old)) }
        ensures refused { OnErr result (book_kind self.new ≡ book_kind self.old) }
        ensures scope { self.new.scope ≡ self.old.scope }
    {
        self.stocks.insert(stock)?;
        Ok(())
    }

    /// Takes the stock off the rule's list.
    pub fn unrestrict(&mut self, stock: Symbol)
        ensures kind { book_kind self.new
            ≡ with_stocks (without_stock stock) (book_kind self.old) }
        ensures scope { self.new.scope ≡ self.old.scope }
    {
        self.stocks.shift_remove(&stock);
    }

    /// Whether the rule, which stands at this place in the file, forbids the order. Figures are
    /// told where its kind asks for some.
    #[inline(always)]
    pub fn forbids_order<F: TellsFigures>(
        &self,
        place: usize,
        figures: &F,
        w: &ProposedOrder,
    ) -> bool
        ensures { result ≡ kind_forbids (book_kind self.now) (F.told figures.now place) w.now }
    {
        match &self.kind {
            RuleKind::Listed(_, _) => is_among(&self.stocks, w.stock),
            RuleKind::Plain(PlainKind::NoShort) => matches!(w.side, b'T' | b'E'),
            RuleKind::Plain(PlainKind::NoIso) => w.intermarket_sweep == b'Y',
            RuleKind::Plain(PlainKind::OddLot) => w.shares % 100 != 0,
            RuleKind::Order(OrderLimit::Shares, limit) => u64::from(w.shares) > *limit,
            RuleKind::Order(OrderLimit::Value, limit) => value_of(w.shares, w.price)
                > u128::from(*limit),
            RuleKind::Order(OrderLimit::Collar, limit) => {
                is_outside_collar(*limit, figures.reference(place), w.price)
            }
            RuleKind::Exposure(ExposureLimit::GrossShares, limit, _) => is_gross_above(
                figures.gross_shares(place),
                u128::from(new_open(w)),
                *limit,
            ),
            RuleKind::Exposure(ExposureLimit::GrossValue, limit, _) => is_gross_above(
                figures.gross_value(place),
                value_of(new_open(w), w.price),
                *limit,
            ),
            RuleKind::Exposure(ExposureLimit::NetShares, limit, _) => is_net_above(
                figures.net_shares(place),
                u128::from(new_open(w)),
                *limit,
            ),
            RuleKind::Rate(rate, _) => figures.has_recent(place, rate.limit),
            RuleKind::Repeat(repeat, _) => {
                w.is_new && figures.has_equal_recent(place, repeat.limit)
            }
        }
    }

    /// Whether the rule forbids the request: only orders of the accounts in its scope.
    pub fn forbids<F: TellsFigures>(
        &self,
        name: RuleId,
        place: usize,
        figures: &F,
        facts: &Facts,
        request: &Request,
    ) -> bool
        ensures { result ≡ rule_forbids facts.now request.now
            (rule_named name self.now) (F.told figures.now place) }
    {
        is_for_scope(&self.scope, facts)
            && proposed(facts, request).is_some_and(|w| self.forbids_order(place, figures, &w))
    }
}
