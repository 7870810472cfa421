//! What stands, as JSON: one object, in which values are in ten-thousandths of a dollar.

ghost use Rattle.std.specs.Prelude.{◌≡◌};
ghost use Rattle.gx_overview.specs.Commands.{granted_commands};

use crate::numbers::append_integer;
use gx_history::live_order::LiveOrder;
use gx_json::{
    append_bool_member, append_command_member, append_count_member, append_first_key,
    append_first_name, append_first_number, append_integer_member, append_key, append_name_member,
    append_number_member, append_sum_member, append_time_member, append_user,
};
use gx_overview::accounts::{AccountRow, account_rows};
use gx_overview::commands::{GrantedCommand, granted_commands};
use gx_overview::day::{DayRow, UserRow, day_row, lines_left, user_rows};
use gx_overview::executed::{ExecutedRow, ExecutedTotals, executed_rows};
use gx_overview::rules::{
    GrossRow, LimitRow, ListingRow, NetRow, gross_rows, limit_rows, listing_rows, net_rows,
};
use gx_policy::{Account, ExposureLimit, FileRule, RuleKind};
use gx_records::{ShowsRecords, ShowsState};
use gx_slab::live::LiveOrders;
use gx_text::{append, append_json_string};
use gx_units::{AccountName, OutOfMemory};
use std::alloc::Global;

/// Puts a comma in front of each item but the first.
fn append_comma(text: &mut Vec<u8>, place: usize) -> Result<(), OutOfMemory> {
    if place > 0 {
        append(text, b",")?;
    }
    Ok(())
}

fn append_day(
    text: &mut Vec<u8>,
    session: &[u8],
    day: &DayRow,
    lines: u16,
) -> Result<(), OutOfMemory> {
    append_first_name(text, b"session", session)?;
    append_number_member(text, b"record", day.records)?;
    append_number_member(text, b"records_left", day.left)?;
    append_number_member(text, b"lines_left", u64::from(lines))?;
    append_time_member(text, b"at", day.moment)?;
    append_bool_member(text, b"closed", day.is_closed)
}

fn append_users(text: &mut Vec<u8>, rows: &[UserRow]) -> Result<(), OutOfMemory> {
    for place in 0..rows.len() {
        append_comma(text, place)?;
        append_user(text, &rows[place])?;
    }
    Ok(())
}

/// What was executed on a side: shares, and their value.
fn append_executed(text: &mut Vec<u8>, done: &ExecutedTotals) -> Result<(), OutOfMemory> {
    append_first_key(text, b"shares")?;
    append_integer(text, done.shares)?;
    append_key(text, b"value")?;
    append_integer(text, done.value)?;
    append(text, b"}")
}

/// What an account has executed on both sides.
fn append_done(text: &mut Vec<u8>, row: &ExecutedRow) -> Result<(), OutOfMemory> {
    append_key(text, b"bought")?;
    append_executed(text, &row.bought)?;
    append_key(text, b"sold")?;
    append_executed(text, &row.sold)
}

fn append_account(
    text: &mut Vec<u8>,
    row: &AccountRow,
    executed: Option<&ExecutedRow>,
) -> Result<(), OutOfMemory> {
    append_first_name(text, b"account", &row.account.bytes)?;
    append_bool_member(text, b"killed", row.killed.is_killed)?;
    append_command_member(text, b"kill", row.killed.kill)?;
    append_command_member(text, b"lift", row.killed.lift)?;
    append_number_member(text, b"live", row.live.orders)?;
    append_key(text, b"open_buys")?;
    append_integer(text, row.live.buys)?;
    append_key(text, b"open_sells")?;
    append_integer(text, row.live.sells)?;
    if let Some(executed) = executed {
        append_done(text, executed)?;
    }
    append(text, b"}")
}

fn append_accounts(
    text: &mut Vec<u8>,
    rows: &[AccountRow],
    executed: &[ExecutedRow],
) -> Result<(), OutOfMemory> {
    for place in 0..rows.len() {
        append_comma(text, place)?;
        append_account(text, &rows[place], executed.get(place))?;
    }
    Ok(())
}

fn append_used(text: &mut Vec<u8>, row: &GrossRow) -> Result<(), OutOfMemory> {
    append_first_name(text, b"account", &row.account.bytes)?;
    append_sum_member(text, b"used", row.used)?;
    append_sum_member(text, b"left", row.left)?;
    append(text, b"}")
}

fn append_gross(text: &mut Vec<u8>, rows: &[GrossRow]) -> Result<(), OutOfMemory> {
    append(text, b",\"gross\":[")?;
    for place in 0..rows.len() {
        append_comma(text, place)?;
        append_used(text, &rows[place])?;
    }
    append(text, b"]")
}

fn append_net_row(
    text: &mut Vec<u8>,
    account: AccountName,
    row: &NetRow,
) -> Result<(), OutOfMemory> {
    append_first_name(text, b"account", &account.bytes)?;
    append_name_member(text, b"stock", &row.stock.bytes)?;
    append_integer_member(text, b"buys", row.buys)?;
    append_integer_member(text, b"sells", row.sells)?;
    append_sum_member(text, b"buys_left", row.buys_left)?;
    append_sum_member(text, b"sells_left", row.sells_left)?;
    append(text, b"}")
}

fn append_net_rows(
    text: &mut Vec<u8>,
    account: AccountName,
    rows: &[NetRow],
    is_first: bool,
) -> Result<(), OutOfMemory> {
    for place in 0..rows.len() {
        append_comma(text, if is_first { place } else { 1 })?;
        append_net_row(text, account, &rows[place])?;
    }
    Ok(())
}

fn append_net<G: ShowsState>(
    text: &mut Vec<u8>,
    alloc: Global,
    gate: &G,
    rule: &FileRule,
    accounts: &[Account],
) -> Result<(), OutOfMemory> {
    append(text, b",\"net\":[")?;
    for place in 0..accounts.len() {
        let account = accounts[place].name;
        let rows = net_rows(alloc, gate, rule.name, account)?;
        append_net_rows(text, account, rows.as_slice(), place == 0)?;
    }
    append(text, b"]")
}

fn append_listing(text: &mut Vec<u8>, row: &ListingRow) -> Result<(), OutOfMemory> {
    append_first_name(text, b"stock", &row.stock.bytes)?;
    append_bool_member(text, b"listed", row.is_listed)?;
    append_command_member(text, b"put", row.put)?;
    append(text, b"}")
}

fn append_listings(text: &mut Vec<u8>, rows: &[ListingRow]) -> Result<(), OutOfMemory> {
    append(text, b",\"stocks\":[")?;
    for place in 0..rows.len() {
        append_comma(text, place)?;
        append_listing(text, &rows[place])?;
    }
    append(text, b"]")
}

/// What is used of the rule's limit, or which stocks it lists.
fn append_standing<G: ShowsState>(
    text: &mut Vec<u8>,
    alloc: Global,
    gate: &G,
    commands: &[GrantedCommand],
    rule: &FileRule,
) -> Result<(), OutOfMemory>
    requires { commands.now ≡ granted_commands (G.state gate.now).records }
{
    match &rule.kind {
        RuleKind::Exposure(ExposureLimit::GrossShares | ExposureLimit::GrossValue, _, _) => {
            let rows = gross_rows(alloc, gate, rule.name)?;
            append_gross(text, rows.as_slice())
        }
        RuleKind::Exposure(ExposureLimit::NetShares, _, _) => {
            append_net(text, alloc, gate, rule, gate.policy().accounts())
        }
        RuleKind::Listed(_, _) => {
            let rows = listing_rows(alloc, gate, commands, rule.name)?;
            append_listings(text, rows.as_slice())
        }
        _ => Ok(()),
    }
}

/// The limit of a rule: that in force, that of the file, and who set it last.
fn append_limits(text: &mut Vec<u8>, row: &LimitRow) -> Result<(), OutOfMemory> {
    append_first_name(text, b"rule", &row.rule.bytes)?;
    append_count_member(text, b"limit", row.limit)?;
    append_count_member(text, b"file", row.file)?;
    append_command_member(text, b"set", row.set)
}

fn append_rules<G: ShowsState>(
    text: &mut Vec<u8>,
    alloc: Global,
    gate: &G,
    commands: &[GrantedCommand],
    limits: &[LimitRow],
    rules: &[FileRule],
) -> Result<(), OutOfMemory>
    requires { commands.now ≡ granted_commands (G.state gate.now).records }
{
    for place in 0..rules.len() {
        append_comma(text, place)?;
        if let Some(row) = limits.get(place) {
            append_limits(text, row)?;
            append_standing(text, alloc, gate, commands, &rules[place])?;
            append(text, b"}")?;
        }
    }
    Ok(())
}

fn append_all_rules<G: ShowsState>(
    text: &mut Vec<u8>,
    alloc: Global,
    gate: &G,
    commands: &[GrantedCommand],
) -> Result<(), OutOfMemory>
    requires { commands.now ≡ granted_commands (G.state gate.now).records }
{
    let limits = limit_rows(alloc, gate, commands)?;
    append(text, b"],\"rules\":[")?;
    append_rules(
        text,
        alloc,
        gate,
        commands,
        limits.as_slice(),
        gate.policy().rules(),
    )
}

fn append_order(text: &mut Vec<u8>, order: &LiveOrder) -> Result<(), OutOfMemory> {
    append_first_number(text, b"order", order.number)?;
    append_name_member(text, b"account", &order.account.bytes)?;
    append_name_member(text, b"user", &order.user.bytes)?;
    append_name_member(text, b"token", &order.token.bytes)?;
    append_key(text, b"side")?;
    append_json_string(text, &[order.terms.side])?;
    append_number_member(text, b"open", u64::from(order.open()))?;
    append_number_member(text, b"total", u64::from(order.total))?;
    append_name_member(text, b"stock", &order.terms.stock.bytes)?;
    append_number_member(text, b"price", u64::from(order.terms.price))?;
    append_bool_member(text, b"waits", order.waits)?;
    append(text, b"}")
}

fn append_orders(text: &mut Vec<u8>, orders: LiveOrders<'_>) -> Result<(), OutOfMemory> {
    append(text, b",\"orders\":[")?;
    let mut is_first = true;
    for order in orders {
        append_comma(text, if is_first { 0 } else { 1 })?;
        append_order(text, order)?;
        is_first = false;
    }
    append(text, b"]")
}

fn append_people<G: ShowsState>(
    text: &mut Vec<u8>,
    alloc: Global,
    gate: &G,
) -> Result<(), OutOfMemory> {
    let rows = user_rows(alloc, gate)?;
    append(text, b",\"users\":[")?;
    append_users(text, rows.as_slice())
}

fn append_all_accounts<G: ShowsRecords + ShowsState>(
    text: &mut Vec<u8>,
    alloc: Global,
    gate: &G,
    commands: &[GrantedCommand],
) -> Result<(), OutOfMemory>
    requires { commands.now ≡ granted_commands (G.state gate.now).records }
{
    let rows = account_rows(alloc, gate, commands)?;
    let executed = executed_rows(alloc, gate)?;
    append(text, b"],\"accounts\":[")?;
    append_accounts(text, rows.as_slice(), executed.as_slice())
}

fn append_state<G: ShowsRecords + ShowsState>(
    text: &mut Vec<u8>,
    alloc: Global,
    gate: &G,
    commands: &[GrantedCommand],
    with_orders: bool,
) -> Result<(), OutOfMemory>
    requires { commands.now ≡ granted_commands (G.state gate.now).records }
{
    let session = gate.policy().session();
    append_day(text, &session.bytes, &day_row(gate), lines_left(gate))?;
    append_people(text, alloc, gate)?;
    append_all_accounts(text, alloc, gate, commands)?;
    append_all_rules(text, alloc, gate, commands)?;
    append(text, b"]")?;
    if with_orders {
        append_orders(text, gate.live_orders())?;
    }
    append(text, b"}\n")
}

/// What stands in the gate's day, as one JSON object on a line: what [`crate::state_text`] tells, with all rows, also those of
/// users who are not logged in and of stocks that a rule does not list.
///
/// # Errors
///
/// `OutOfMemory` where the text was refused its memory.
pub fn state_json<G: ShowsRecords + ShowsState>(
    alloc: Global,
    gate: &G,
    with_orders: bool,
) -> Result<Vec<u8>, OutOfMemory> {
    let commands = granted_commands(alloc, &gate.shown_records())?;
    let mut text = Vec::new(alloc);
    append_state(&mut text, alloc, gate, commands.as_slice(), with_orders)?;
    Ok(text)
}
