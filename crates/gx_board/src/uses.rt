//! What is used of the limits of gross and net rules, by the accounts that are a viewer's.

ghost use Rattle.std.specs.Prelude.{◌≡◌, ◌++◌, flat_map, filter, map, IfOk, OnOk};
ghost use Rattle.gx_board.specs.Views.{gross_use, gross_uses, gross_uses_of, is_gross_shown, is_net_used, is_used, net_use, net_uses, net_uses_in, net_uses_of};

use crate::sight::is_shown;
use gx_overview::rules::{GrossRow, NetRow, gross_rows, net_rows};
use gx_policy::{Account, FileRule};
use gx_records::ShowsState;
use gx_units::{AccountName, OutOfMemory, RuleId, UserName};
use std::alloc::Global;

/// What an account has used of the limit of a gross rule: with all others in the rule's scope, where it counts them together.
#[derive(Clone, Copy, PartialEq, Eq)]
pub struct GrossUse {
    /// The name of the rule.
    pub rule: RuleId,
    /// The account, what it has used, and what is left.
    pub row: GrossRow,
}

/// What an account has used of the limit of a net rule, in one stock: with all others in the rule's scope, where it counts them
/// together.
#[derive(Clone, Copy, PartialEq, Eq)]
pub struct NetUse {
    /// The name of the rule.
    pub rule: RuleId,
    /// The name of the account.
    pub account: AccountName,
    /// The stock, what is used on each of its sides, and what is left.
    pub row: NetRow,
}

fn is_used(used: Option<i128>) -> bool
    ensures { result ≡ is_used used }
{
    match used {
        Some(used) => used > 0,
        None => false,
    }
}

/// Whether something is used of the limit on a side of the stock.
fn is_net_used(row: &NetRow) -> bool
    ensures { result ≡ is_net_used row.now }
{
    is_used(row.buys) || is_used(row.sells)
}

fn is_gross_shown<G: ShowsState>(gate: &G, viewer: UserName, row: &GrossRow) -> bool
    ensures { result ≡ is_gross_shown (G.state gate.now).policy (G.state gate.now).records
        viewer row.now }
{
    row.used.is_some() && is_shown(gate, viewer, row.account)
}

/// Puts the rows of accounts that are his behind the others.
fn add_gross_rows<G: ShowsState>(
    uses: &mut Vec<GrossUse>,
    gate: &G,
    viewer: UserName,
    rule: RuleId,
    rows: &[GrossRow],
) -> Result<(), OutOfMemory>
    ensures { OnOk result (uses.new.items ≡ uses.old.items ++ map (gross_use rule)
        (filter (is_gross_shown (G.state gate.now).policy (G.state gate.now).records viewer)
        rows.now)) }
{
    for row in rows {
        if is_gross_shown(gate, viewer, row) {
            uses.push(GrossUse { rule, row: *row })?;
        }
    }
    Ok(())
}

/// Puts what his accounts have used of the limit of the rule behind the others.
fn add_gross<G: ShowsState>(
    uses: &mut Vec<GrossUse>,
    alloc: Global,
    gate: &G,
    viewer: UserName,
    rule: &FileRule,
) -> Result<(), OutOfMemory>
    ensures { OnOk result (uses.new.items ≡ uses.old.items
        ++ gross_uses_of (G.state gate.now).policy (G.state gate.now).records viewer rule.now) }
{
    if !rule.kind.is_gross() {
        return Ok(());
    }
    let rows = gross_rows(alloc, gate, rule.name)?;
    add_gross_rows(uses, gate, viewer, rule.name, rows.as_slice())
}

fn gross_uses_among<G: ShowsState>(
    alloc: Global,
    gate: &G,
    viewer: UserName,
    rules: &[FileRule],
) -> Result<Vec<GrossUse>, OutOfMemory>
    ensures { IfOk result (λ uses. uses.items ≡ flat_map
        (gross_uses_of (G.state gate.now).policy (G.state gate.now).records viewer) rules.now) }
{
    let mut uses = Vec::new(alloc);
    for rule in rules {
        add_gross(&mut uses, alloc, gate, viewer, rule)?;
    }
    Ok(uses)
}

/// What the accounts that are the viewer's have used of the limit of each gross rule that is for them, in the file's order.
pub(crate) fn gross_uses<G: ShowsState>(
    alloc: Global,
    gate: &G,
    viewer: UserName,
) -> Result<Vec<GrossUse>, OutOfMemory>
    ensures { IfOk result (λ uses. uses.items
        ≡ gross_uses (G.state gate.now).policy (G.state gate.now).records viewer) }
{
    gross_uses_among(alloc, gate, viewer, gate.policy().rules())
}

/// Puts the stocks in which something is used behind the others.
fn add_net_rows(
    uses: &mut Vec<NetUse>,
    rule: RuleId,
    account: AccountName,
    rows: &[NetRow],
) -> Result<(), OutOfMemory>
    ensures { OnOk result (uses.new.items
        ≡ uses.old.items ++ map (net_use rule account) (filter is_net_used rows.now)) }
{
    for row in rows {
        if is_net_used(row) {
            uses.push(NetUse {
                rule,
                account,
                row: *row,
            })?;
        }
    }
    Ok(())
}

/// Puts what the account has used behind the others, where it is his.
fn add_net<G: ShowsState>(
    uses: &mut Vec<NetUse>,
    alloc: Global,
    gate: &G,
    viewer: UserName,
    rule: &FileRule,
    account: &Account,
) -> Result<(), OutOfMemory>
    ensures { OnOk result (uses.new.items ≡ uses.old.items
        ++ net_uses_in (G.state gate.now).policy (G.state gate.now).records
        viewer rule.now account.now) }
{
    if !is_shown(gate, viewer, account.name) {
        return Ok(());
    }
    let rows = net_rows(alloc, gate, rule.name, account.name)?;
    add_net_rows(uses, rule.name, account.name, rows.as_slice())
}

fn add_net_of<G: ShowsState>(
    uses: &mut Vec<NetUse>,
    alloc: Global,
    gate: &G,
    viewer: UserName,
    rule: &FileRule,
    accounts: &[Account],
) -> Result<(), OutOfMemory>
    ensures { OnOk result (uses.new.items ≡ uses.old.items ++ flat_map
        (net_uses_in (G.state gate.now).policy (G.state gate.now).records viewer rule.now)
        accounts.now) }
{
    for account in accounts {
        add_net(uses, alloc, gate, viewer, rule, account)?;
    }
    Ok(())
}

fn add_if_net<G: ShowsState>(
    uses: &mut Vec<NetUse>,
    alloc: Global,
    gate: &G,
    viewer: UserName,
    rule: &FileRule,
) -> Result<(), OutOfMemory>
    ensures { OnOk result (uses.new.items ≡ uses.old.items
        ++ net_uses_of (G.state gate.now).policy (G.state gate.now).records viewer rule.now) }
{
    if !rule.kind.is_net() {
        return Ok(());
    }
    add_net_of(uses, alloc, gate, viewer, rule, gate.policy().accounts())
}

fn net_uses_among<G: ShowsState>(
    alloc: Global,
    gate: &G,
    viewer: UserName,
    rules: &[FileRule],
) -> Result<Vec<NetUse>, OutOfMemory>
    ensures { IfOk result (λ uses. uses.items ≡ flat_map
        (net_uses_of (G.state gate.now).policy (G.state gate.now).records viewer) rules.now) }
{
    let mut uses = Vec::new(alloc);
    for rule in rules {
        add_if_net(&mut uses, alloc, gate, viewer, rule)?;
    }
    Ok(uses)
}

/// What the accounts that are the viewer's have used of the limit of each net rule, in each stock in which they have used some,
/// in the file's order.
pub(crate) fn net_uses<G: ShowsState>(
    alloc: Global,
    gate: &G,
    viewer: UserName,
) -> Result<Vec<NetUse>, OutOfMemory>
    ensures { IfOk result (λ uses. uses.items
        ≡ net_uses (G.state gate.now).policy (G.state gate.now).records viewer) }
{
    net_uses_among(alloc, gate, viewer, gate.policy().rules())
}
