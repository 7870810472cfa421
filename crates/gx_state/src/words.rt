//! What stands, in words: a line each.

ghost use Rattle.std.specs.Prelude.{◌≡◌};
ghost use Rattle.gx_overview.specs.Commands.{granted_commands};

use crate::numbers::{Unit, append_amount, append_command, append_integer, append_padded, unit_of};
use crate::orders::append_order_lines;
use gx_money::append_dollars;
use gx_overview::accounts::{AccountRow, account_rows};
use gx_overview::commands::{GrantedCommand, granted_commands};
use gx_overview::day::{DayRow, UserRow, day_row, lines_left, user_rows};
use gx_overview::executed::{ExecutedRow, ExecutedTotals, executed_rows};
use gx_overview::rules::{
    GrossRow, LimitRow, ListingRow, NetRow, gross_rows, limit_rows, listing_rows, net_rows,
};
use gx_policy::{Account, Count, ExposureLimit, FileRule, RuleKind};
use gx_records::{ShowsRecords, ShowsState};
use gx_text::{Decimals, append, append_moment, append_name, append_number};
use gx_units::{AccountName, OutOfMemory, RuleId};
use std::alloc::Global;

/// The first line: the day, its last record, and how far it is.
fn append_day(
    text: &mut Vec<u8>,
    session: &[u8],
    day: &DayRow,
    lines: u16,
) -> Result<(), OutOfMemory> {
    append_name(text, session)?;
    append(text, b"  record ")?;
    append_number(text, day.records)?;
    append(text, b"  ")?;
    append_moment(text, day.moment, Decimals::Nine)?;
    append(
        text,
        if day.is_closed {
            b"  closed  "
        } else {
            b"  open  "
        },
    )?;
    append_number(text, day.left)?;
    append(text, b" more records and ")?;
    append_number(text, u64::from(lines))?;
    append(text, b" more lines may come\n")
}

/// Who is logged in, and on which line.
fn append_users(text: &mut Vec<u8>, rows: &[UserRow]) -> Result<(), OutOfMemory> {
    for row in rows {
        if let Some(line) = row.line {
            append(text, b"on        ")?;
            append_padded(text, &row.user.bytes)?;
            append(text, b"    line ")?;
            append_number(text, u64::from(line))?;
            append(text, b"\n")?;
        }
    }
    Ok(())
}

/// What was executed on a side: shares, and their value.
fn append_executed(text: &mut Vec<u8>, done: &ExecutedTotals) -> Result<(), OutOfMemory> {
    append_integer(text, done.shares)?;
    append(text, b" for ")?;
    append_dollars(text, done.value)
}

/// What an account has executed on both sides.
fn append_done(text: &mut Vec<u8>, row: &ExecutedRow) -> Result<(), OutOfMemory> {
    append(text, b"  done B ")?;
    append_executed(text, &row.bought)?;
    append(text, b"  done S ")?;
    append_executed(text, &row.sold)
}

/// The line of an account.
fn append_account(
    text: &mut Vec<u8>,
    row: &AccountRow,
    executed: Option<&ExecutedRow>,
) -> Result<(), OutOfMemory> {
    append(text, b"account   ")?;
    append_padded(text, &row.account.bytes)?;
    append(text, b"  live ")?;
    append_number(text, row.live.orders)?;
    append(text, b"  open B ")?;
    append_integer(text, row.live.buys)?;
    append(text, b"  open S ")?;
    append_integer(text, row.live.sells)?;
    if let Some(executed) = executed {
        append_done(text, executed)?;
    }
    if row.killed.is_killed {
        append(text, b"  KILLED")?;
    }
    if let Some(kill) = &row.killed.kill {
        append(text, b" by ")?;
        append_command(text, kill)?;
    }
    if let Some(lift) = &row.killed.lift {
        append(text, b"  lifted by ")?;
        append_command(text, lift)?;
    }
    append(text, b"\n")
}

fn append_accounts(
    text: &mut Vec<u8>,
    rows: &[AccountRow],
    executed: &[ExecutedRow],
) -> Result<(), OutOfMemory> {
    for place in 0..rows.len() {
        append_account(text, &rows[place], executed.get(place))?;
    }
    Ok(())
}

/// The line of a rule's limit: that in force, that of the file, and who set it last.
fn append_limit(
    text: &mut Vec<u8>,
    row: &LimitRow,
    limit: u64,
    unit: Unit,
) -> Result<(), OutOfMemory> {
    append(text, b"limit     ")?;
    append_padded(text, &row.rule.bytes)?;
    append(text, b"  ")?;
    append_amount(text, u128::from(limit), unit)?;
    append(text, b"  file ")?;
    append_amount(text, u128::from(row.file.unwrap_or(limit)), unit)?;
    if let Some(set) = &row.set {
        append(text, b"  set by ")?;
        append_command(text, set)?;
    }
    append(text, b"\n")
}

/// The line of what is used of a gross rule's limit.
fn append_used(
    text: &mut Vec<u8>,
    rule: RuleId,
    whose: &[u8],
    row: &GrossRow,
    used: u128,
    unit: Unit,
) -> Result<(), OutOfMemory> {
    append(text, b"used      ")?;
    append_padded(text, &rule.bytes)?;
    append(text, b"  ")?;
    append_padded(text, whose)?;
    append(text, b"  used ")?;
    append_amount(text, used, unit)?;
    append(text, b"  left ")?;
    append_amount(text, row.left.unwrap_or(0), unit)?;
    append(text, b"\n")
}

/// The lines of what is used of a gross rule's limit: one for each account that the rule is for, or one for all of them.
fn append_gross(
    text: &mut Vec<u8>,
    rule: RuleId,
    rows: &[GrossRow],
    unit: Unit,
    count: Count,
) -> Result<(), OutOfMemory> {
    for row in rows {
        if let Some(used) = row.used {
            if count == Count::Together {
                return append_used(text, rule, b"together", row, used, unit);
            }
            append_used(text, rule, &row.account.bytes, row, used, unit)?;
        }
    }
    Ok(())
}

/// The line of what is used of a net rule's limit on both sides of a stock.
fn append_net_line(
    text: &mut Vec<u8>,
    rule: RuleId,
    account: AccountName,
    row: &NetRow,
) -> Result<(), OutOfMemory> {
    let (Some(buys), Some(sells)) = (row.buys, row.sells) else {
        return Ok(());
    };
    if buys == 0 && sells == 0 {
        return Ok(());
    }
    append(text, b"net       ")?;
    append_padded(text, &rule.bytes)?;
    append(text, b"  ")?;
    append_padded(text, &account.bytes)?;
    append(text, b"  ")?;
    append_padded(text, &row.stock.bytes)?;
    append(text, b"  B ")?;
    append_integer(text, buys)?;
    append(text, b" left ")?;
    append_integer(text, row.buys_left.unwrap_or(0))?;
    append(text, b"  S ")?;
    append_integer(text, sells)?;
    append(text, b" left ")?;
    append_integer(text, row.sells_left.unwrap_or(0))?;
    append(text, b"\n")
}

fn append_net(
    text: &mut Vec<u8>,
    rule: RuleId,
    account: AccountName,
    rows: &[NetRow],
) -> Result<(), OutOfMemory> {
    for row in rows {
        append_net_line(text, rule, account, row)?;
    }
    Ok(())
}

/// What each account has used of a net rule's limit, in the stocks in which it has anything.
fn append_net_of_all<G: ShowsState>(
    text: &mut Vec<u8>,
    alloc: Global,
    gate: &G,
    rule: RuleId,
    accounts: &[Account],
) -> Result<(), OutOfMemory> {
    for account in accounts {
        let rows = net_rows(alloc, gate, rule, account.name)?;
        append_net(text, rule, account.name, rows.as_slice())?;
    }
    Ok(())
}

/// The line of a stock that a rule lists.
fn append_listing(text: &mut Vec<u8>, rule: RuleId, row: &ListingRow) -> Result<(), OutOfMemory> {
    append(text, b"lists     ")?;
    append_padded(text, &rule.bytes)?;
    append(text, b"  ")?;
    append_padded(text, &row.stock.bytes)?;
    match &row.put {
        Some(put) => {
            append(text, b"  put by ")?;
            append_command(text, put)?;
        }
        None => append(text, b"  by the file")?,
    }
    append(text, b"\n")
}

fn append_listings(
    text: &mut Vec<u8>,
    rule: RuleId,
    rows: &[ListingRow],
) -> Result<(), OutOfMemory> {
    for row in rows {
        if row.is_listed {
            append_listing(text, rule, row)?;
        }
    }
    Ok(())
}

/// What is used of the rule's limit, or which stocks it lists.
fn append_standing<G: ShowsState>(
    text: &mut Vec<u8>,
    alloc: Global,
    gate: &G,
    commands: &[GrantedCommand],
    rule: &FileRule,
) -> Result<(), OutOfMemory>
    requires { commands.now ≡ granted_commands (G.state gate.now).records }
{
    match &rule.kind {
        RuleKind::Exposure(ExposureLimit::GrossShares | ExposureLimit::GrossValue, _, count) => {
            let rows = gross_rows(alloc, gate, rule.name)?;
            append_gross(
                text,
                rule.name,
                rows.as_slice(),
                unit_of(&rule.kind),
                *count,
            )
        }
        RuleKind::Exposure(ExposureLimit::NetShares, _, _) => {
            append_net_of_all(text, alloc, gate, rule.name, gate.policy().accounts())
        }
        RuleKind::Listed(_, _) => {
            let rows = listing_rows(alloc, gate, commands, rule.name)?;
            append_listings(text, rule.name, rows.as_slice())
        }
        _ => Ok(()),
    }
}

/// The lines of each rule: of its limit, and of what is used of it or which stocks it lists.
fn append_rules<G: ShowsState>(
    text: &mut Vec<u8>,
    alloc: Global,
    gate: &G,
    commands: &[GrantedCommand],
    limits: &[LimitRow],
    rules: &[FileRule],
) -> Result<(), OutOfMemory>
    requires { commands.now ≡ granted_commands (G.state gate.now).records }
{
    for place in 0..rules.len() {
        let rule = &rules[place];
        if let Some(row) = limits.get(place) {
            if let Some(limit) = row.limit {
                append_limit(text, row, limit, unit_of(&rule.kind))?;
            }
        }
        append_standing(text, alloc, gate, commands, rule)?;
    }
    Ok(())
}

fn append_all_rules<G: ShowsState>(
    text: &mut Vec<u8>,
    alloc: Global,
    gate: &G,
    commands: &[GrantedCommand],
) -> Result<(), OutOfMemory>
    requires { commands.now ≡ granted_commands (G.state gate.now).records }
{
    let limits = limit_rows(alloc, gate, commands)?;
    append_rules(
        text,
        alloc,
        gate,
        commands,
        limits.as_slice(),
        gate.policy().rules(),
    )
}

fn append_people<G: ShowsState>(
    text: &mut Vec<u8>,
    alloc: Global,
    gate: &G,
) -> Result<(), OutOfMemory> {
    let rows = user_rows(alloc, gate)?;
    append_users(text, rows.as_slice())
}

fn append_all_accounts<G: ShowsRecords + ShowsState>(
    text: &mut Vec<u8>,
    alloc: Global,
    gate: &G,
    commands: &[GrantedCommand],
) -> Result<(), OutOfMemory>
    requires { commands.now ≡ granted_commands (G.state gate.now).records }
{
    let rows = account_rows(alloc, gate, commands)?;
    let executed = executed_rows(alloc, gate)?;
    append_accounts(text, rows.as_slice(), executed.as_slice())
}

fn append_state<G: ShowsRecords + ShowsState>(
    text: &mut Vec<u8>,
    alloc: Global,
    gate: &G,
    commands: &[GrantedCommand],
    with_orders: bool,
) -> Result<(), OutOfMemory>
    requires { commands.now ≡ granted_commands (G.state gate.now).records }
{
    let session = gate.policy().session();
    append_day(text, &session.bytes, &day_row(gate), lines_left(gate))?;
    append_people(text, alloc, gate)?;
    append_all_accounts(text, alloc, gate, commands)?;
    append_all_rules(text, alloc, gate, commands)?;
    if with_orders {
        append_order_lines(text, gate.live_orders())
    } else {
        Ok(())
    }
}

/// What stands in the gate's day, in words: a line of the day, one of each user who is logged in, one of each account, and of
/// each rule its limit, what is used of it, and the stocks that it lists; and where that is asked for, one of each live
/// order.
///
/// # Errors
///
/// `OutOfMemory` where the text was refused its memory.
pub fn state_text<G: ShowsRecords + ShowsState>(
    alloc: Global,
    gate: &G,
    with_orders: bool,
) -> Result<Vec<u8>, OutOfMemory> {
    let commands = granted_commands(alloc, &gate.shown_records())?;
    let mut text = Vec::new(alloc);
    append_state(&mut text, alloc, gate, commands.as_slice(), with_orders)?;
    Ok(text)
}
