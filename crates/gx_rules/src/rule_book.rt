//! The file's rules with their settings in force.

ghost use Rattle.std.specs.{Prelude.{◌≡◌, ◌≤◌, ◌+◌, find, length, option_and_then, option_copied, IsTrue, IsFalse, is_some, IfOk, OnOk, OnErr, IfSome, IfNone}, List.{list_all, list_any}, Map.lookup};
ghost use Rattle.gx_units.specs.Names.{same_account};
ghost use Rattle.gx_history.specs.{Asking.knows_stocks, Rules.{applies, rules_with_figures, figured_from, first_forbidding, first_file_rule, written_order, IsFirstForbidding}};
ghost use Rattle.gx_policy.specs.{People.rule_in, Soundness.rules_differ};
ghost use Rattle.gx_rules.specs.{Books.{lists_once, rules_of_entries}, Places.{forbids_at, named_at, AreTied}, Settings.{covers_in, limit_in, lists_in, with_stock_restricted, with_stock_unrestricted, with_limit_of}};

use crate::book_rule::BookRule;
use crate::order::{first_before, first_behind};
use crate::request::proposed;
use crate::rule_places::{RulePlaces, places_by_account};
use gx_history::facts::{Facts, ProposedOrder, TellsFigures};
use gx_history::record::Request;
use gx_index::get_near;
use gx_policy::{FileRule, Policy, RuleName};
use gx_units::{AccountName, OutOfMemory, RuleId, Symbol};
use indexmap::IndexMap;
use indexmap::map::Slice;
use std::alloc::Global;
use std::marker::Model;

/// The file's rules with their settings in force: limits and lists of stocks change by commands, while the names,
/// their order and their scopes stay. Contracts see it as the list of the rules, in the file's order.
#[derive(Drop)]
pub struct RuleBook {
    rules: IndexMap<RuleId, BookRule>,
    /// The places of the rules that each account of the policy is under.
    by_account: IndexMap<AccountName, RulePlaces>,
}

impl Model for RuleBook {
    ghost use Rattle.std.specs.Prelude.{List};
    ghost use Rattle.gx_policy.specs.declared.policy.FileRule.{FileRule};
    ghost use Rattle.gx_rules.specs.Books.{rules_of_entries};
    ghost use Rattle.gx_rules.specs.Places.{AreTied};

    ghost Value = { List FileRule };

    ghost view = { λ book. rules_of_entries book.rules.entries };

    ghost invariant = { λ book. AreTied book.rules.entries book.by_account.entries };
}

/// The rules, each under its name.
fn kept_rules(alloc: Global, rules: &[FileRule]) -> Result<IndexMap<RuleId, BookRule>, OutOfMemory>
    requires names_differ { IsTrue (rules_differ rules.now) }
    requires stocks_differ { IsTrue (list_all lists_once rules.now) }
    ensures { IfOk result (λ r. rules_of_entries r.entries ≡ rules.now) }
{
    let mut kept = IndexMap::new(alloc);
    for rule in rules {
        kept.insert(rule.name, BookRule::new(alloc, rule)?)?;
    }
    Ok(kept)
}

/// The first rule of the file, from this place on, that forbids.
fn first_from<F: TellsFigures>(
    entries: Slice<'_, RuleId, BookRule>,
    place: usize,
    figures: &F,
    facts: &Facts,
    request: &Request,
) -> Option<RuleName>
    requires fits { place + length entries ≤ 128 }
    ensures { result ≡ first_file_rule
        (figured_from (F.told figures.now) place (rules_of_entries entries.entry))
        facts.now request.now }
{
    let Some(((name, rule), entries_left)) = entries.split_first() else {
        return None;
    };
    if rule.forbids(*name, place, figures, facts, request) {
        return Some(RuleName::File(*name));
    }
    first_from(entries_left, place + 1, figures, facts, request)
}

/// Whether the rule at this place in the file forbids the order.
#[inline(always)]
fn forbids_at<F: TellsFigures>(
    rules: &IndexMap<RuleId, BookRule>,
    place: usize,
    figures: &F,
    w: &ProposedOrder,
) -> bool
    ensures { result ≡ forbids_at (F.told figures.now) rules.now.entries w.now place }
{
    match rules.get_index(place) {
        Some((_, rule)) => rule.forbids_order(place, figures, w),
        None => false,
    }
}

/// The name of the rule at this place in the file.
fn named_at(rules: &IndexMap<RuleId, BookRule>, place: usize) -> Option<RuleName>
    ensures { result ≡ named_at rules.now.entries place }
{
    match rules.get_index(place) {
        Some((name, _)) => Some(RuleName::File(*name)),
        None => None,
    }
}

/// The first of these places where a rule stands that forbids the order; the figures of each are
/// told as it is asked.
fn first_place<F: TellsFigures>(
    rules: &IndexMap<RuleId, BookRule>,
    places: &[usize],
    figures: &F,
    w: &ProposedOrder,
) -> Option<usize>
    ensures { result ≡ find
        (forbids_at (F.told figures.now) rules.now.entries w.now) places.now }
{
    places
        .iter()
        .copied()
        .find(|place| forbids_at(rules, *place, figures, w))
}

/// The first of the rules at these places that forbids the order.
fn first_at<F: TellsFigures>(
    rules: &IndexMap<RuleId, BookRule>,
    places: &[usize],
    figures: &F,
    w: &ProposedOrder,
) -> Option<RuleName>
    ensures { result ≡ option_and_then (named_at rules.now.entries)
        (find (forbids_at (F.told figures.now) rules.now.entries w.now) places.now) }
{
    match first_place(rules, places, figures, w) {
        Some(place) => named_at(rules, place),
        None => None,
    }
}

/// The places of the rules that the account is under, which is looked for at this place first; None
/// where it is not the policy's.
fn places_under(
    by_account: &IndexMap<AccountName, RulePlaces>,
    account: AccountName,
    near: usize,
) -> Option<&RulePlaces>
    ensures { option_copied result ≡ lookup (same_account account) by_account.now.entries }
{
    get_near(by_account, near, account)
}

/// The first rule of the file that forbids. An account of the policy is asked about the rules that
/// it is under alone.
fn first_of_file<F: TellsFigures>(
    rules: &IndexMap<RuleId, BookRule>,
    by_account: &IndexMap<AccountName, RulePlaces>,
    figures: &F,
    facts: &Facts,
    near: usize,
    request: &Request,
) -> Option<RuleName>
    requires tied { AreTied rules.now.entries by_account.now.entries }
    ensures { result ≡ first_file_rule
        (rules_with_figures (F.told figures.now) (rules_of_entries rules.now.entries))
        facts.now request.now }
{
    let Some(account) = facts.account else {
        return None;
    };
    let Some(w) = proposed(facts, request) else {
        return None;
    };
    match places_under(by_account, account, near) {
        Some(places) => first_at(rules, places.as_slice(), figures, &w),
        None => first_from(rules.as_slice(), 0, figures, facts, request),
    }
}

#[tactic(auto, using(crate::proofs::RuleOrder_parts::first_in_parts))]
fn first_in_order<F: TellsFigures>(
    rules: &IndexMap<RuleId, BookRule>,
    by_account: &IndexMap<AccountName, RulePlaces>,
    figures: &F,
    facts: &Facts,
    near: usize,
    request: &Request,
) -> Option<RuleName>
    requires tied { AreTied rules.now.entries by_account.now.entries }
    ensures { result ≡ first_forbidding
        (rules_with_figures (F.told figures.now) (rules_of_entries rules.now.entries))
        facts.now request.now }
{
    match first_before(facts, request) {
        None => first_of_file(rules, by_account, figures, facts, near, request).or_else(
            || first_behind(facts, request),
        ),
        found => found,
    }
}

impl RuleBook {
    /// The rules as the policy file has them.
    ///
    /// # Errors
    ///
    /// `OutOfMemory` where the copy was refused its memory.
    pub fn new(alloc: Global, policy: &Policy) -> Result<RuleBook, OutOfMemory>
        ensures of_policy { IfOk result (λ b. b ≡ policy.now.rules) }
    {
        let rules = kept_rules(alloc, policy.rules())?;
        let by_account = places_by_account(alloc, policy.rules(), policy.accounts())?;
        Ok(RuleBook { rules, by_account })
    }

    /// Gives the rule another limit, as a granted Set Limit does.
    pub fn set_limit(&mut self, rule: RuleId, value: u64)
        requires has_limit { IsTrue (is_some (limit_in self.old rule)) }
        ensures limited { self.new ≡ with_limit_of rule value self.old }
    {
        if let Some(index) = self.rules.get_index_of(&rule) {
            self.rules[index].set_limit(value);
        }
    }

    /// Puts the stock on the rule's list, at its end unless it is there, as a granted Restrict does.
    ///
    /// # Errors
    ///
    /// `OutOfMemory` where the list was refused the memory to grow; then nothing has changed.
    pub fn restrict(&mut self, rule: RuleId, stock: Symbol) -> Result<(), OutOfMemory>
        requires has_list { IsTrue (knows_stocks (rule_in self.old rule)) }
        ensures restricted { OnOk result (self.new ≡ with_stock_restricted rule stock self.old) }
        ensures refused { OnErr result (self.new ≡ self.old) }
    {
        match self.rules.get_index_of(&rule) {
            Some(index) => self.rules[index].restrict(stock),
            None => Ok(()),
        }
    }

    /// Takes the stock off the rule's list, as a granted Unrestrict does.
    pub fn unrestrict(&mut self, rule: RuleId, stock: Symbol)
        requires has_list { IsTrue (knows_stocks (rule_in self.old rule)) }
        ensures unrestricted { self.new ≡ with_stock_unrestricted rule stock self.old }
    {
        if let Some(index) = self.rules.get_index_of(&rule) {
            self.rules[index].unrestrict(stock);
        }
    }

    /// The limit of the rule in force; None where there is no such rule, or it has none that Set Limit may change.
    pub fn limit(&self, rule: RuleId) -> Option<u64>
        ensures limit { result ≡ limit_in self.now rule }
    {
        match self.rules.get(&rule) {
            Some(found) => found.limit(),
            None => None,
        }
    }

    /// Whether there is such a rule, and it has a list of stocks.
    pub fn has_list(&self, rule: RuleId) -> bool
        ensures has_list { result ≡ knows_stocks (rule_in self.now rule) }
    {
        match self.rules.get(&rule) {
            Some(found) => found.has_list(),
            None => false,
        }
    }

    /// Whether the rule has a list of stocks, and the stock is on it.
    pub fn lists(&self, rule: RuleId, stock: Symbol) -> bool
        ensures lists { result ≡ lists_in self.now rule stock }
    {
        match self.rules.get(&rule) {
            Some(found) => found.lists(stock),
            None => false,
        }
    }

    /// Whether the account is in the rule's scope; not where there is no such rule. No command changes it.
    pub fn covers(&self, rule: RuleId, account: AccountName) -> bool
        ensures covers { result ≡ covers_in self.now rule account }
    {
        match self.rules.get(&rule) {
            Some(found) => found.scope.covers(account),
            None => false,
        }
    }

    /// The first rule of the written order that forbids the request, by the figures told for each rule of the file as it is
    /// asked; None where no rule does.
    #[tactic(auto, using(gx_laws::proofs::Rules_first::is_first_forbidding, gx_laws::proofs::Rules_first::none_forbids))]
    pub fn first_forbidding<F: TellsFigures>(
        &self,
        facts: &Facts,
        figures: &F,
        near: usize,
        request: &Request,
    ) -> Option<RuleName>
        ensures few { length self.now ≤ 128 }
        ensures first { result ≡
            first_forbidding (rules_with_figures (F.told figures.now) self.now) facts.now request.now }
        ensures is_first { IfSome result (IsFirstForbidding
            (rules_with_figures (F.told figures.now) self.now) facts.now request.now) }
        ensures none { IfNone result (IsFalse (list_any (applies facts.now request.now)
            (written_order (rules_with_figures (F.told figures.now) self.now)))) }
    {
        first_in_order(&self.rules, &self.by_account, figures, facts, near, request)
    }

    /// Lets it go. Its drop is proved here once, and not in each crate that owns one.
    pub fn release(self) {}
}
