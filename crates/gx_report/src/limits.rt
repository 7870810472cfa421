//! The most that was used of each limit.

use crate::commands::limit_cell;
use gx_history::facts::StockSide;
use gx_peaks::{Peak, Peaks};
use gx_policy::{Count, ExposureLimit, FileRule, Policy, RuleKind};
use gx_tables::{Cell, Table, TableKind, name_of};
use gx_units::{AccountName, OutOfMemory};
use std::alloc::Global;

/// What was used, in the unit of the rule's limit.
fn used_cell(kind: &RuleKind, used: u128) -> Cell {
    match kind {
        RuleKind::Exposure(ExposureLimit::GrossValue, _, _) => Cell::Dollars(used),
        _ => Cell::Sum(used),
    }
}

/// The used share of the limit.
fn share_cell(peak: &Peak) -> Cell {
    let Some(limit) = peak.limit else {
        return Cell::Empty;
    };
    match peak
        .used
        .saturating_mul(1_000)
        .checked_div(u128::from(limit))
    {
        Some(tenths) => Cell::Tenths(tenths),
        None => Cell::Empty,
    }
}

/// The moment and the number of the record behind which the peak stood; nothing where none is above 0.
fn place_cells(peak: &Peak) -> [Cell; 2] {
    if peak.number == 0 {
        return [Cell::Empty, Cell::Empty];
    }
    [Cell::Moment(peak.moment), Cell::Count(peak.number)]
}

fn past_cell(peak: &Peak) -> Cell {
    match peak.first_past {
        Some(number) => Cell::Count(number),
        None => Cell::Empty,
    }
}

/// What stands behind the names of a peak's row.
fn peak_cells(policy: &Policy, rule: &FileRule, peak: &Peak) -> [Cell; 6] {
    let [at, record] = place_cells(peak);
    [
        used_cell(&rule.kind, peak.used),
        at,
        record,
        limit_cell(policy, rule.name, peak.limit),
        share_cell(peak),
        past_cell(peak),
    ]
}

/// Whose figure it is: the account's, or that of all accounts of the rule.
fn whose_cell(count: Count, account: AccountName) -> Cell {
    match count {
        Count::Each => Cell::Name(name_of(&account.bytes)),
        Count::Together => Cell::Name(name_of(b"together")),
    }
}

/// How a gross rule counts, if it is one.
fn gross_count(kind: &RuleKind) -> Option<Count> {
    match kind {
        RuleKind::Exposure(ExposureLimit::GrossShares | ExposureLimit::GrossValue, _, count) => {
            Some(*count)
        },
        _ => None,
    }
}

/// How a net rule counts, if it is one.
fn net_count(kind: &RuleKind) -> Option<Count> {
    match kind {
        RuleKind::Exposure(ExposureLimit::NetShares, _, count) => Some(*count),
        _ => None,
    }
}

fn push_gross(
    table: &mut Table,
    policy: &Policy,
    rule: &FileRule,
    whose: Cell,
    peak: &Peak,
) -> Result<(), OutOfMemory> {
    let [used, at, record, limit, share, past] = peak_cells(policy, rule, peak);
    let name = Cell::Name(name_of(&rule.name.bytes));
    table.push(&[name, whose, used, at, record, limit, share, past])
}

/// A row for each account that the gross rule is for, or one where it counts them together.
fn push_gross_of_rule(
    table: &mut Table,
    policy: &Policy,
    peaks: &Peaks,
    rule: &FileRule,
    count: Count,
) -> Result<(), OutOfMemory> {
    for account in policy.accounts() {
        if let Some(peak) = peaks.gross(policy, rule.name, account.name) {
            push_gross(table, policy, rule, whose_cell(count, account.name), &peak)?;
            if count == Count::Together {
                return Ok(());
            }
        }
    }
    Ok(())
}

/// The most that was used of each gross limit.
pub(crate) fn gross_table(
    alloc: Global,
    policy: &Policy,
    peaks: &Peaks,
) -> Result<Table, OutOfMemory> {
    let mut table = Table::new(alloc, TableKind::GrossPeaks);
    for rule in policy.rules() {
        if let Some(count) = gross_count(&rule.kind) {
            push_gross_of_rule(&mut table, policy, peaks, rule, count)?;
        }
    }
    Ok(table)
}

/// The row of one side of a stock, if anything of the limit was ever used there.
fn push_side(
    table: &mut Table,
    policy: &Policy,
    peaks: &Peaks,
    rule: &FileRule,
    account: AccountName,
    side: StockSide,
) -> Result<(), OutOfMemory> {
    let Some(peak) = peaks.net(policy, rule.name, account, side) else {
        return Ok(());
    };
    if peak.used == 0 {
        return Ok(());
    }
    let whose = match net_count(&rule.kind) {
        Some(count) => whose_cell(count, account),
        None => Cell::Empty,
    };
    let [used, at, record, limit, share, past] = peak_cells(policy, rule, &peak);
    table.push(&[
        Cell::Name(name_of(&rule.name.bytes)),
        whose,
        Cell::Name(name_of(&side.stock.bytes)),
        Cell::Name(name_of(if side.buys { b"B" } else { b"S" })),
        used,
        at,
        record,
        limit,
        share,
        past,
    ])
}

fn push_stocks(
    table: &mut Table,
    policy: &Policy,
    peaks: &Peaks,
    rule: &FileRule,
    account: AccountName,
) -> Result<(), OutOfMemory> {
    for listed in policy.stocks() {
        let stock = listed.name;
        let buys = StockSide { stock, buys: true };
        let sells = StockSide { stock, buys: false };
        push_side(table, policy, peaks, rule, account, buys)?;
        push_side(table, policy, peaks, rule, account, sells)?;
    }
    Ok(())
}

fn push_net_of_rule(
    table: &mut Table,
    policy: &Policy,
    peaks: &Peaks,
    rule: &FileRule,
    count: Count,
) -> Result<(), OutOfMemory> {
    for account in policy.accounts() {
        if rule.scope.covers(account.name) {
            push_stocks(table, policy, peaks, rule, account.name)?;
            if count == Count::Together {
                return Ok(());
            }
        }
    }
    Ok(())
}

/// The most that was used of each net limit, where anything was.
pub(crate) fn net_table(
    alloc: Global,
    policy: &Policy,
    peaks: &Peaks,
) -> Result<Table, OutOfMemory> {
    let mut table = Table::new(alloc, TableKind::NetPeaks);
    for rule in policy.rules() {
        if let Some(count) = net_count(&rule.kind) {
            push_net_of_rule(&mut table, policy, peaks, rule, count)?;
        }
    }
    Ok(table)
}
