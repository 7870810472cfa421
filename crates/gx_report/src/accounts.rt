//! What accounts did.

use gx_activity::activity::{ActivityRow, OrderRequests, activity_rows};
use gx_activity::positions::{PositionRow, position_rows};
use gx_overview::accounts::{AccountRow, account_rows};
use gx_overview::commands::granted_commands;
use gx_overview::executed::{ExecutedRow, executed_rows};
use gx_records::{ShowsRecords, ShowsState};
use gx_tables::{Cell, Table, TableKind, name_of};
use gx_units::OutOfMemory;
use std::alloc::Global;

/// How many requests there were in all.
fn total_of(requests: OrderRequests) -> u64 {
    requests
        .enters
        .saturating_add(requests.replaces)
        .saturating_add(requests.cancels)
}

fn killed_cell(row: &AccountRow) -> Cell {
    if row.killed.is_killed {
        Cell::Name(name_of(b"KILLED"))
    } else {
        Cell::Empty
    }
}

/// The row of an account.
fn account_cells(activity: &ActivityRow, done: &ExecutedRow, standing: &AccountRow) -> [Cell; 12] {
    [
        Cell::Name(name_of(&activity.account.bytes)),
        Cell::Count(activity.granted.enters),
        Cell::Count(activity.granted.replaces),
        Cell::Count(activity.granted.cancels),
        Cell::Count(total_of(activity.denied)),
        Cell::Count(activity.fills),
        Cell::Sum(done.bought.shares),
        Cell::Dollars(done.bought.value),
        Cell::Sum(done.sold.shares),
        Cell::Dollars(done.sold.value),
        Cell::Count(standing.live.orders),
        killed_cell(standing),
    ]
}

/// A row for each account of the policy.
pub(crate) fn accounts_table<G: ShowsRecords + ShowsState>(
    alloc: Global,
    gate: &G,
) -> Result<Table, OutOfMemory> {
    let mut table = Table::new(alloc, TableKind::Accounts);
    let activity = activity_rows(alloc, gate)?;
    let done = executed_rows(alloc, gate)?;
    let commands = granted_commands(alloc, &gate.shown_records())?;
    let standing = account_rows(alloc, gate, commands.as_slice())?;
    let rows = activity
        .iter()
        .zip(done.as_slice())
        .zip(standing.as_slice());
    for ((activity, done), standing) in rows {
        table.push(&account_cells(activity, done, standing))?;
    }
    Ok(table)
}

/// The sum as a number that may be below 0: a day's shares stay far below the greatest.
fn signed(sum: u128) -> i128 {
    i128::try_from(sum).unwrap_or(i128::MAX)
}

fn position_cells(row: &PositionRow) -> [Cell; 7] {
    let bought = row.bought.shares;
    let sold = row.sold.shares;
    [
        Cell::Name(name_of(&row.position.account.bytes)),
        Cell::Name(name_of(&row.position.stock.bytes)),
        Cell::Sum(bought),
        Cell::Dollars(row.bought.value),
        Cell::Sum(sold),
        Cell::Dollars(row.sold.value),
        Cell::Difference(signed(bought).saturating_sub(signed(sold))),
    ]
}

/// A row for each account and stock in which something was executed.
pub(crate) fn positions_table<G: ShowsRecords>(
    alloc: Global,
    gate: &G,
) -> Result<Table, OutOfMemory> {
    let mut table = Table::new(alloc, TableKind::Positions);
    let rows = position_rows(alloc, gate)?;
    for row in rows.as_slice() {
        table.push(&position_cells(row))?;
    }
    Ok(table)
}
