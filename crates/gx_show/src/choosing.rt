//! The records of a day that are asked for.

ghost use Rattle.std.specs.Prelude.{◌≡◌, IfOk, OnOk, [], ◌∷◌, ◌++◌, option_to_list, if◌then◌else◌};
ghost use Rattle.gx_policy.specs.People.{trades_for};
ghost use Rattle.gx_show.specs.{Known.order_made, Choosing.{records_chosen, concerns_account, concerns_order, concerns_rule, concerns_stock, concerns_user, denies_by, is_asked_for, is_in_span, is_in_stock, is_of_account, is_wanted}};

use crate::choice::{Choice, OrderLife};
use crate::commands::{action_of, acts_on, is_on_rule, lists};
use crate::known_order::OrderTest;
use crate::known_orders::KnownOrders;
use crate::making::{asked_in, made, speaks_of};
use gx_history::record::{Asked, Record, RecordData, Request, Verdict};
use gx_policy::Policy;
use gx_units::{AccountName, OutOfMemory, RuleId, Symbol, UserName};
use std::alloc::Global;

/// Whether the user trades for the account.
fn trades_for(policy: &Policy, account: AccountName, user: UserName) -> bool
    ensures { result ≡ trades_for policy.now account user }
{
    match policy.account_of(user) {
        Some(own) => own == account,
        None => false,
    }
}

/// Whether the request is one of the account's traders, or a command that acts on it.
fn is_of_account(policy: &Policy, account: AccountName, asked: &Asked) -> bool
    ensures { result ≡ is_of_account policy.now account asked.now }
{
    if trades_for(policy, account, asked.user) {
        return true;
    }
    match action_of(&asked.request) {
        Some(action) => acts_on(policy, account, &action),
        None => false,
    }
}

/// Whether the record concerns the account.
fn concerns_account(
    policy: &Policy,
    known: &KnownOrders,
    shown: &RecordData,
    account: AccountName,
) -> bool
    ensures { result ≡ concerns_account policy.now known.now shown.now account }
{
    if let Some(asked) = asked_in(shown) {
        if is_of_account(policy, account, &asked) {
            return true;
        }
    }
    speaks_of(policy, known, shown, OrderTest::OfAccount(account))
}

/// Whether the record was asked for by the user, or speaks of one of his orders.
fn concerns_user(policy: &Policy, known: &KnownOrders, shown: &RecordData, user: UserName) -> bool
    ensures { result ≡ concerns_user policy.now known.now shown.now user }
{
    if let Some(asked) = asked_in(shown) {
        if asked.user == user {
            return true;
        }
    }
    speaks_of(policy, known, shown, OrderTest::OfUser(user))
}

/// Whether the record speaks of the order, or is the Kill or Close Day that it ended by.
fn concerns_order(policy: &Policy, known: &KnownOrders, shown: &RecordData, life: OrderLife) -> bool
    ensures { result ≡ concerns_order policy.now known.now shown.now life }
{
    speaks_of(policy, known, shown, OrderTest::Numbered(life.number))
        || life.ended_by.is_some_and(|end| end == shown.number)
}

/// Whether the request is an Enter in the stock, or a command that names it.
fn is_in_stock(stock: Symbol, request: &Request) -> bool
    ensures { result ≡ is_in_stock stock request.now }
{
    match request {
        Request::Enter(m) => m.stock == stock,
        Request::Command(command) => lists(stock, &command.action),
        _ => false,
    }
}

/// Whether the record concerns the stock, or an order in it.
fn concerns_stock(policy: &Policy, known: &KnownOrders, shown: &RecordData, stock: Symbol) -> bool
    ensures { result ≡ concerns_stock policy.now known.now shown.now stock }
{
    if let Some(asked) = asked_in(shown) {
        if is_in_stock(stock, &asked.request) {
            return true;
        }
    }
    speaks_of(policy, known, shown, OrderTest::InStock(stock))
}

/// Whether the verdict is a denial by the rule.
fn denies_by(rule: RuleId, verdict: &Verdict) -> bool
    ensures { result ≡ denies_by rule verdict.now }
{
    match verdict {
        Verdict::Denied(name) => name.id() == rule,
        _ => false,
    }
}

/// Whether the record is a denial by the rule, or a command on it.
fn concerns_rule(shown: &RecordData, rule: RuleId) -> bool
    ensures { result ≡ concerns_rule shown.now rule }
{
    if denies_by(rule, &shown.verdict) {
        return true;
    }
    let Some(asked) = asked_in(shown) else {
        return false;
    };
    match action_of(&asked.request) {
        Some(action) => is_on_rule(rule, &action),
        None => false,
    }
}

/// Whether the record's moment and verdict are as they are asked for.
fn is_in_span(choice: &Choice, shown: &RecordData) -> bool
    ensures { result ≡ is_in_span choice.now shown.now }
{
    if shown.moment < choice.from {
        return false;
    }
    if shown.moment > choice.to {
        return false;
    }
    if !choice.only_denied {
        return true;
    }
    matches!(shown.verdict, Verdict::Denied(_))
}

/// Whether the record concerns the account, if one is asked for.
fn is_of_wanted_account(
    policy: &Policy,
    known: &KnownOrders,
    shown: &RecordData,
    account: Option<AccountName>,
) -> bool
    ensures { result ≡ is_wanted (concerns_account policy.now known.now shown.now) account }
{
    match account {
        Some(account) => concerns_account(policy, known, shown, account),
        None => true,
    }
}

/// Whether the record concerns the user, if one is asked for.
fn is_of_wanted_user(
    policy: &Policy,
    known: &KnownOrders,
    shown: &RecordData,
    user: Option<UserName>,
) -> bool
    ensures { result ≡ is_wanted (concerns_user policy.now known.now shown.now) user }
{
    match user {
        Some(user) => concerns_user(policy, known, shown, user),
        None => true,
    }
}

/// Whether the record concerns the order, if one is asked for.
fn is_of_wanted_order(
    policy: &Policy,
    known: &KnownOrders,
    shown: &RecordData,
    order: Option<OrderLife>,
) -> bool
    ensures { result ≡ is_wanted (concerns_order policy.now known.now shown.now) order }
{
    match order {
        Some(life) => concerns_order(policy, known, shown, life),
        None => true,
    }
}

/// Whether the record concerns the stock, if one is asked for.
fn is_of_wanted_stock(
    policy: &Policy,
    known: &KnownOrders,
    shown: &RecordData,
    stock: Option<Symbol>,
) -> bool
    ensures { result ≡ is_wanted (concerns_stock policy.now known.now shown.now) stock }
{
    match stock {
        Some(stock) => concerns_stock(policy, known, shown, stock),
        None => true,
    }
}

/// Whether the record concerns the rule, if one is asked for.
fn is_of_wanted_rule(shown: &RecordData, rule: Option<RuleId>) -> bool
    ensures { result ≡ is_wanted (concerns_rule shown.now) rule }
{
    match rule {
        Some(rule) => concerns_rule(shown, rule),
        None => true,
    }
}

/// Whether the record is asked for, by the orders before it.
fn is_asked_for(policy: &Policy, choice: &Choice, known: &KnownOrders, shown: &RecordData) -> bool
    ensures { result ≡ is_asked_for policy.now choice.now known.now shown.now }
{
    if !is_in_span(choice, shown) {
        return false;
    }
    if !is_of_wanted_account(policy, known, shown, choice.account) {
        return false;
    }
    if !is_of_wanted_user(policy, known, shown, choice.user) {
        return false;
    }
    if !is_of_wanted_order(policy, known, shown, choice.order) {
        return false;
    }
    if !is_of_wanted_stock(policy, known, shown, choice.stock) {
        return false;
    }
    is_of_wanted_rule(shown, choice.rule)
}

/// Puts the order that the record makes behind the others, if it makes one.
fn note(policy: &Policy, known: &mut KnownOrders, shown: &RecordData) -> Result<(), OutOfMemory>
    ensures { OnOk result (known.new
        ≡ known.old ++ option_to_list (order_made policy.now known.old shown.now)) }
{
    match made(policy, known, shown) {
        Some(order) => known.push(order),
        None => Ok(()),
    }
}

/// Puts the record behind those that were found, if it is wanted.
fn keep(found: &mut Vec<Record>, kept: Record, is_wanted: bool) -> Result<(), OutOfMemory>
    ensures { OnOk result (found.new.items
        ≡ found.old.items ++ (if is_wanted then kept ∷ [] else [])) }
{
    if is_wanted {
        found.push(kept)?;
    }
    Ok(())
}

/// The records that are asked for, in their order: none is left out, and none is there twice.
///
/// `OutOfMemory`: a table could not grow.
pub fn chosen_records(
    alloc: Global,
    policy: &Policy,
    choice: &Choice,
    records: &[Record],
) -> Result<Vec<Record>, OutOfMemory>
    ensures { IfOk result (λ found.
        found.items ≡ records_chosen policy.now choice.now records.now) }
{
    let mut known = KnownOrders::new(alloc);
    let mut found = Vec::new(alloc);
    for record in records {
        let shown = record.content();
        let is_wanted = is_asked_for(policy, choice, &known, &shown);
        keep(&mut found, *record, is_wanted)?;
        note(policy, &mut known, &shown)?;
    }
    Ok(found)
}
