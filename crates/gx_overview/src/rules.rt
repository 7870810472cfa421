//! What stands of the policy's rules: limits, what is used of them, and lists of stocks.

ghost use Rattle.std.specs.Prelude.{◌≡◌, map, IfOk};
ghost use Rattle.gx_overview.specs.{Commands.granted_commands, Rules.{gross_row, left_of, limit_row, listing_row, net_left_of, net_row, room_of}};

use crate::commands::{GrantedCommand, Subject, last_about};
use gx_history::facts::StockSide;
use gx_policy::{Account, FileRule, KindName, Stock};
use gx_records::ShowsState;
use gx_units::{AccountName, OutOfMemory, RuleId, Symbol};
use std::alloc::Global;

/// What stands of a rule's limit, in shares, in ten-thousandths of a dollar, or of a collar in ten-thousandths of the
/// reference price.
#[derive(Clone, Copy, PartialEq, Eq)]
pub struct LimitRow {
    /// The name of the rule.
    pub rule: RuleId,
    /// What it limits.
    pub kind: KindName,
    /// The limit in force; None where the rule has none that Set Limit may change.
    pub limit: Option<u64>,
    /// That of the policy file.
    pub file: Option<u64>,
    /// The last Set Limit of the rule that was granted; None where the file's limit stands.
    pub set: Option<GrantedCommand>,
}

/// What is used of the limit of a gross rule by an account, or by all accounts of its scope where it counts them together:
/// in shares, or in ten-thousandths of a dollar.
#[derive(Clone, Copy, PartialEq, Eq)]
pub struct GrossRow {
    /// The name of the account.
    pub account: AccountName,
    /// None where the rule is no gross rule, or not for the account.
    pub used: Option<u128>,
    /// What is left of the limit in force; 0 where more is used.
    pub left: Option<u128>,
}

/// What is used of the limit of a net rule on each side of a stock, in shares, below 0 where more were executed on the other
/// side; and what is left of the limit in force there: by how many shares more the figure may rise, 0 where it is past it.
#[derive(Clone, Copy, PartialEq, Eq)]
pub struct NetRow {
    /// The name of the stock.
    pub stock: Symbol,
    /// None where the rule is no net rule, or not for the account.
    pub buys: Option<i128>,
    /// The same of all that is no buy.
    pub sells: Option<i128>,
    /// What is left for buys; None where `buys` is.
    pub buys_left: Option<u128>,
    /// What is left for all that is no buy; None where `sells` is.
    pub sells_left: Option<u128>,
}

/// Whether a rule lists a stock now.
#[derive(Clone, Copy, PartialEq, Eq)]
pub struct ListingRow {
    /// The name of the stock.
    pub stock: Symbol,
    /// The rule lists it.
    pub is_listed: bool,
    /// The Restrict that put it there last; None where the file did, or it is not there.
    pub put: Option<GrantedCommand>,
}

fn limit_row<G: ShowsState>(gate: &G, commands: &[GrantedCommand], rule: &FileRule) -> LimitRow
    requires { commands.now ≡ granted_commands (G.state gate.now).records }
    ensures { result ≡ limit_row (G.state gate.now).policy (G.state gate.now).records rule.now }
{
    LimitRow {
        rule: rule.name,
        kind: rule.kind.name(),
        limit: gate.limit(rule.name),
        file: rule.kind.limit(),
        set: last_about(commands, Subject::LimitOf(rule.name)),
    }
}

fn limit_rows_of<G: ShowsState>(
    alloc: Global,
    gate: &G,
    commands: &[GrantedCommand],
    rules: &[FileRule],
) -> Result<Vec<LimitRow>, OutOfMemory>
    requires { commands.now ≡ granted_commands (G.state gate.now).records }
    ensures { IfOk result (λ rows. rows.items ≡ map
        (limit_row (G.state gate.now).policy (G.state gate.now).records) rules.now) }
{
    let mut rows = Vec::new(alloc);
    for rule in rules {
        rows.push(limit_row(gate, commands, rule))?;
    }
    Ok(rows)
}

/// What stands of the limit of each rule of the policy, in the file's order. The commands are all that were granted in the
/// day.
///
/// # Errors
///
/// `OutOfMemory` where the rows were refused their memory.
pub fn limit_rows<G: ShowsState>(
    alloc: Global,
    gate: &G,
    commands: &[GrantedCommand],
) -> Result<Vec<LimitRow>, OutOfMemory>
    requires commands { commands.now ≡ granted_commands (G.state gate.now).records }
    ensures rows { IfOk result (λ rows. rows.items ≡ map
        (limit_row (G.state gate.now).policy (G.state gate.now).records)
        (G.state gate.now).policy.rules) }
{
    limit_rows_of(alloc, gate, commands, gate.policy().rules())
}

/// What is left of the limit.
fn left_of(limit: Option<u64>, used: Option<u128>) -> Option<u128>
    ensures { result ≡ left_of limit used }
{
    match (limit, used) {
        (Some(limit), Some(used)) => Some(u128::from(limit).saturating_sub(used)),
        _ => None,
    }
}

fn gross_row<G: ShowsState>(gate: &G, rule: RuleId, account: &Account) -> GrossRow
    ensures { result ≡
        gross_row (G.state gate.now).policy (G.state gate.now).records rule account.now }
{
    let used = gate.gross_used(rule, account.name);
    GrossRow {
        account: account.name,
        used,
        left: left_of(gate.limit(rule), used),
    }
}

fn gross_rows_of<G: ShowsState>(
    alloc: Global,
    gate: &G,
    rule: RuleId,
    accounts: &[Account],
) -> Result<Vec<GrossRow>, OutOfMemory>
    ensures { IfOk result (λ rows. rows.items ≡ map
        (gross_row (G.state gate.now).policy (G.state gate.now).records rule) accounts.now) }
{
    let mut rows = Vec::new(alloc);
    for account in accounts {
        rows.push(gross_row(gate, rule, account))?;
    }
    Ok(rows)
}

/// What each account of the policy has used of the limit of a gross rule, in the file's order.
///
/// # Errors
///
/// `OutOfMemory` where the rows were refused their memory.
pub fn gross_rows<G: ShowsState>(
    alloc: Global,
    gate: &G,
    rule: RuleId,
) -> Result<Vec<GrossRow>, OutOfMemory>
    ensures rows { IfOk result (λ rows. rows.items ≡ map
        (gross_row (G.state gate.now).policy (G.state gate.now).records rule)
        (G.state gate.now).policy.accounts) }
{
    gross_rows_of(alloc, gate, rule, gate.policy().accounts())
}

/// By how many shares a net figure may rise under this limit.
fn room_of(limit: u64, used: i128) -> u128
    ensures { result ≡ room_of limit used }
{
    if used < 0 {
        u128::from(limit) + used.unsigned_abs()
    } else {
        u128::from(limit).saturating_sub(used as u128)
    }
}

fn net_left_of(limit: Option<u64>, used: Option<i128>) -> Option<u128>
    ensures { result ≡ net_left_of limit used }
{
    match (limit, used) {
        (Some(limit), Some(used)) => Some(room_of(limit, used)),
        _ => None,
    }
}

fn net_row<G: ShowsState>(gate: &G, rule: RuleId, account: AccountName, stock: &Stock) -> NetRow
    ensures { result ≡
        net_row (G.state gate.now).policy (G.state gate.now).records rule account stock.now }
{
    let stock = stock.name;
    let buys = gate.net_used(rule, account, StockSide { stock, buys: true });
    let sells = gate.net_used(rule, account, StockSide { stock, buys: false });
    let limit = gate.limit(rule);
    NetRow {
        stock,
        buys,
        sells,
        buys_left: net_left_of(limit, buys),
        sells_left: net_left_of(limit, sells),
    }
}

fn net_rows_of<G: ShowsState>(
    alloc: Global,
    gate: &G,
    rule: RuleId,
    account: AccountName,
    stocks: &[Stock],
) -> Result<Vec<NetRow>, OutOfMemory>
    ensures { IfOk result (λ rows. rows.items ≡ map
        (net_row (G.state gate.now).policy (G.state gate.now).records rule account) stocks.now) }
{
    let mut rows = Vec::new(alloc);
    for stock in stocks {
        rows.push(net_row(gate, rule, account, stock))?;
    }
    Ok(rows)
}

/// What the account has used of the limit of a net rule on each side of each stock of the policy, in the file's order.
///
/// # Errors
///
/// `OutOfMemory` where the rows were refused their memory.
pub fn net_rows<G: ShowsState>(
    alloc: Global,
    gate: &G,
    rule: RuleId,
    account: AccountName,
) -> Result<Vec<NetRow>, OutOfMemory>
    ensures rows { IfOk result (λ rows. rows.items ≡ map
        (net_row (G.state gate.now).policy (G.state gate.now).records rule account)
        (G.state gate.now).policy.stocks) }
{
    net_rows_of(alloc, gate, rule, account, gate.policy().stocks())
}

fn listing_row<G: ShowsState>(
    gate: &G,
    commands: &[GrantedCommand],
    rule: RuleId,
    stock: &Stock,
) -> ListingRow
    requires { commands.now ≡ granted_commands (G.state gate.now).records }
    ensures { result ≡
        listing_row (G.state gate.now).policy (G.state gate.now).records rule stock.now }
{
    let stock = stock.name;
    let is_listed = gate.lists(rule, stock);
    let put = if is_listed {
        last_about(commands, Subject::StockOn(rule, stock))
    } else {
        None
    };
    ListingRow {
        stock,
        is_listed,
        put,
    }
}

fn listing_rows_of<G: ShowsState>(
    alloc: Global,
    gate: &G,
    commands: &[GrantedCommand],
    rule: RuleId,
    stocks: &[Stock],
) -> Result<Vec<ListingRow>, OutOfMemory>
    requires { commands.now ≡ granted_commands (G.state gate.now).records }
    ensures { IfOk result (λ rows. rows.items ≡ map
        (listing_row (G.state gate.now).policy (G.state gate.now).records rule) stocks.now) }
{
    let mut rows = Vec::new(alloc);
    for stock in stocks {
        rows.push(listing_row(gate, commands, rule, stock))?;
    }
    Ok(rows)
}

/// Which stocks of the policy the rule lists now, as halted or as restricted, in the file's order. The commands are all that
/// were granted in the day.
///
/// # Errors
///
/// `OutOfMemory` where the rows were refused their memory.
pub fn listing_rows<G: ShowsState>(
    alloc: Global,
    gate: &G,
    commands: &[GrantedCommand],
    rule: RuleId,
) -> Result<Vec<ListingRow>, OutOfMemory>
    requires commands { commands.now ≡ granted_commands (G.state gate.now).records }
    ensures rows { IfOk result (λ rows. rows.items ≡ map
        (listing_row (G.state gate.now).policy (G.state gate.now).records rule)
        (G.state gate.now).policy.stocks) }
{
    listing_rows_of(alloc, gate, commands, rule, gate.policy().stocks())
}
