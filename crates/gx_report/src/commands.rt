//! What officers asked for.

use gx_desk::Action;
use gx_endings::commands::CommandRow;
use gx_endings::endings::Ending;
use gx_policy::{ExposureLimit, OrderLimit, Policy, RuleKind};
use gx_tables::{Cell, Name, Table, TableKind, name_of};
use gx_units::{OutOfMemory, RuleId};
use std::alloc::Global;

fn cell_of(bytes: &[u8]) -> Cell {
    Cell::Name(name_of(bytes))
}

/// What a command is of, an account, a rule or a reader, and about which stock or account.
fn names_of(action: &Action) -> [Cell; 2] {
    match action {
        Action::Kill(account) | Action::Lift(account) => [cell_of(&account.bytes), Cell::Empty],
        Action::SetLimit(rule, _) => [cell_of(&rule.bytes), Cell::Empty],
        Action::Restrict(rule, stock) | Action::Unrestrict(rule, stock) => {
            [cell_of(&rule.bytes), cell_of(&stock.bytes)]
        }
        Action::Grant(reader, account) | Action::Revoke(reader, account) => {
            [cell_of(&reader.bytes), cell_of(&account.bytes)]
        }
        Action::CloseDay => [Cell::Empty, Cell::Empty],
    }
}

/// A limit of a rule of this kind, in its unit.
fn cell_of_limit(kind: &RuleKind, limit: u64) -> Cell {
    match kind {
        RuleKind::Order(OrderLimit::Value, _)
        | RuleKind::Exposure(ExposureLimit::GrossValue, _, _) => Cell::Dollars(u128::from(limit)),
        RuleKind::Order(OrderLimit::Collar, _) => Cell::Parts(limit),
        _ => Cell::Count(limit),
    }
}

/// A limit of the rule.
pub(crate) fn limit_cell(policy: &Policy, rule: RuleId, limit: Option<u64>) -> Cell {
    let Some(limit) = limit else {
        return Cell::Empty;
    };
    match policy.rule(rule) {
        Some(rule) => cell_of_limit(&rule.kind, limit),
        None => Cell::Count(limit),
    }
}

fn killed_word(was_killed: Option<bool>) -> Cell {
    match was_killed {
        Some(true) => cell_of(b"killed"),
        Some(false) => cell_of(b"live"),
        None => Cell::Empty,
    }
}

/// What stood in front of the command, and what it asks for.
fn values_of(policy: &Policy, row: &CommandRow) -> [Cell; 2] {
    match &row.action {
        Action::SetLimit(rule, limit) => [
            limit_cell(policy, *rule, row.limit_before),
            limit_cell(policy, *rule, Some(*limit)),
        ],
        _ => [killed_word(row.was_killed), Cell::Empty],
    }
}

fn verdict_cell(row: &CommandRow) -> Cell {
    match row.denied_by {
        Some(rule) => cell_of(&rule.id().bytes),
        None => cell_of(b"granted"),
    }
}

/// What a command ended: orders, and their open shares.
fn ended_cells(ended: Option<&Ending>) -> [Cell; 2] {
    match ended {
        Some(ending) => [Cell::Count(ending.orders), Cell::Sum(ending.shares)],
        None => [Cell::Empty, Cell::Empty],
    }
}

/// The ending of the record of this number, if it is the one at this place.
fn ending_at(endings: &[Ending], place: usize, number: u64) -> Option<&Ending> {
    let ending = endings.get(place)?;
    if ending.number == number {
        Some(ending)
    } else {
        None
    }
}

fn command_cells(policy: &Policy, row: &CommandRow, ended: Option<&Ending>) -> [Cell; 11] {
    let [of, about] = names_of(&row.action);
    let [before, after] = values_of(policy, row);
    let [orders, shares] = ended_cells(ended);
    [
        Cell::Count(row.number),
        Cell::Moment(row.moment),
        cell_of(&row.officer.bytes),
        Cell::Name(name_of(row.action.word())),
        of,
        about,
        before,
        after,
        verdict_cell(row),
        orders,
        shares,
    ]
}

/// A row for each command, in their order. Both lists are by rising number.
pub(crate) fn commands_table(
    alloc: Global,
    policy: &Policy,
    commands: &[CommandRow],
    endings: &[Ending],
) -> Result<Table, OutOfMemory> {
    let mut table = Table::new(alloc, TableKind::Commands);
    let mut place: usize = 0;
    for row in commands {
        let ended = ending_at(endings, place, row.number);
        table.push(&command_cells(policy, row, ended))?;
        if ended.is_some() {
            place = place.saturating_add(1);
        }
    }
    Ok(table)
}
