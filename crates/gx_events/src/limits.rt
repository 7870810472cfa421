//! The limits of the file's rules, as they are in force.

ghost use Rattle.std.specs.{Prelude.{◌≡◌, IfOk, map}, Option.option_map_or};
ghost use Rattle.gx_history.specs.{Requests.granted_action};
ghost use Rattle.gx_events.specs.Known.{counts_money, entry_named, limit_entry, limit_in_entry, limits_of, limit_set, limits_after};

use gx_desk::Action;
use gx_history::record::{RecordData, Request, Step, Verdict};
use gx_policy::{ExposureLimit, FileRule, KindName, OrderLimit};
use gx_units::{OutOfMemory, RuleId};
use std::alloc::Global;
use std::marker::Model;

/// A rule of the file, and its limit, if it has one that Set Limit may change: an amount of money where the rule counts a value.
#[derive(Clone, Copy, PartialEq, Eq)]
pub struct RuleLimit {
    /// The name of the rule.
    pub rule: RuleId,
    /// The limit in force; None where the rule has none that Set Limit may change.
    pub limit: Option<u64>,
    /// Whether the limit is an amount of money, in ten-thousandths of a dollar.
    pub is_money: bool,
}

/// Whether a rule of this kind counts a value, so that its limit is an amount of money.
pub fn counts_money(kind: KindName) -> bool
    ensures { result ≡ counts_money kind }
{
    matches!(
        kind,
        KindName::Order(OrderLimit::Value) | KindName::Exposure(ExposureLimit::GrossValue)
    )
}

/// The command that the record grants, if it grants one.
fn granted_action(shown: &RecordData) -> Option<Action>
    ensures { result ≡ granted_action shown.now }
{
    match (&shown.verdict, &shown.step) {
        (Verdict::Granted, Step::Asked(asked)) => match &asked.request {
            Request::Command(command) => Some(command.action),
            _ => None,
        },
        _ => None,
    }
}

impl RuleLimit {
    fn of(rule: &FileRule) -> RuleLimit
        ensures { result ≡ limit_entry rule.now }
    {
        RuleLimit {
            rule: rule.name,
            limit: rule.kind.limit(),
            is_money: counts_money(rule.kind.name()),
        }
    }

    /// Sets the limit, if the rule has this name and a limit.
    fn set(&mut self, name: RuleId, limit: u64)
        ensures { self.new ≡ limit_set name limit self.old }
    {
        if self.rule == name && self.limit.is_some() {
            self.limit = Some(limit);
        }
    }
}

/// What is known of the rule of this name; None where there is no such rule.
fn entry_among(limits: &[RuleLimit], name: RuleId) -> Option<RuleLimit>
    ensures { result ≡ entry_named limits.now name }
{
    limits.iter().copied().find(|held| held.rule == name)
}

/// The limit that is known; None where there is no rule, or it has none.
pub(crate) fn limit_in_entry(entry: Option<RuleLimit>) -> Option<u64>
    ensures { result ≡ limit_in_entry entry }
{
    match entry {
        Some(held) => held.limit,
        None => None,
    }
}

/// Sets the limit of each rule of this name that has one.
fn set_each(limits: &mut [RuleLimit], name: RuleId, limit: u64)
    ensures { limits.new ≡ map (limit_set name limit) limits.old }
{
    for held in limits.iter_mut() {
        held.set(name, limit);
    }
}

/// The limits of the file's rules, in the file's order. Contracts see them as a list.
#[derive(Drop)]
pub(crate) struct Limits {
    items: Vec<RuleLimit>,
}

impl Model for Limits {
    ghost use Rattle.std.specs.Prelude.{List};
    ghost use Rattle.gx_events.specs.declared.limits.RuleLimit.{RuleLimit};

    ghost Value = { List RuleLimit };

    ghost view = { λ limits. limits.items.items };
}

impl Limits {
    /// The limits as the policy file has them.
    pub(crate) fn new(alloc: Global, rules: &[FileRule]) -> Result<Limits, OutOfMemory>
        ensures { IfOk result (λ limits. limits ≡ limits_of rules.now) }
    {
        let items = rules.iter().map(|rule| RuleLimit::of(rule)).collect(alloc)?;
        Ok(Limits { items })
    }

    /// Limits of their own that are the same.
    pub(crate) fn copied(&self, alloc: Global) -> Result<Limits, OutOfMemory>
        ensures { IfOk result (λ limits. limits ≡ self.now) }
    {
        let items = self.items.as_slice().to_vec(alloc)?;
        Ok(Limits { items })
    }

    /// What is known of the rule of this name, with its limit in force; None where there is no such rule.
    pub(crate) fn entry(&self, name: RuleId) -> Option<RuleLimit>
        ensures { result ≡ entry_named self.now name }
    {
        entry_among(self.items.as_slice(), name)
    }

    fn set(&mut self, name: RuleId, limit: u64)
        ensures { self.new ≡ map (limit_set name limit) self.old }
    {
        set_each(&mut self.items, name, limit);
    }

    /// Does to the limits what the record's command does, if it grants one.
    pub(crate) fn note(&mut self, shown: &RecordData)
        ensures { self.new ≡ option_map_or
            (limits_after self.old) (granted_action shown.now) self.old }
    {
        if let Some(Action::SetLimit(name, limit)) = granted_action(shown) {
            self.set(name, limit);
        }
    }
}
