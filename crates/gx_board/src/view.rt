//! What a viewer is shown of a day, at one moment.

ghost use Rattle.std.specs.Prelude.{◌≡◌, filter, IfOk};
ghost use Rattle.gx_board.specs.{Counting.commands, Summaries.IsSummary, Sight.{is_record_shown, is_user_shown}, Views.{IsView, user_rows}};

use crate::accounts::{AccountState, account_states};
use crate::counts::Counts;
use crate::denied::DeniedRow;
use crate::sight::{is_record_shown, is_user_shown};
use crate::summary::Summary;
use crate::uses::{GrossUse, NetUse, gross_uses, net_uses};
use circular_buffer::HeapCircularBuffer;
use gx_history::record::RecordData;
use gx_overview::day::{DayRow, UserRow, day_row, user_rows};
use gx_overview::rules::{LimitRow, limit_rows};
use gx_records::{ShowsRecords, ShowsState};
use gx_units::{OutOfMemory, UserName};
use std::alloc::Global;

/// What a viewer is shown of a day, at one moment: of accounts those that are his. What names no account is shown to all.
#[derive(Drop)]
pub struct BoardView {
    /// How far the day is.
    pub day: DayRow,
    /// What its records say in numbers.
    pub counts: Counts,
    /// What stands of each account that is his.
    pub accounts: Vec<AccountState>,
    /// What stands of each rule's limit.
    pub limits: Vec<LimitRow>,
    /// What his accounts have used of the limits of gross rules, those that a rule counts together with all in its scope.
    pub gross: Vec<GrossUse>,
    /// What they have used of the limits of net rules, in each stock in which they have used some.
    pub net: Vec<NetUse>,
    /// How often each rule denied a request, of whatever account.
    pub denied: Vec<DeniedRow>,
    /// Of the last denials those of what the traders of his accounts asked for, and of commands that name an account that is his,
    /// or none.
    pub denials: Vec<RecordData>,
    /// Of the last commands those that name an account that is his, or none.
    pub commands: Vec<RecordData>,
    /// Whether he and the traders of his accounts are logged in.
    pub users: Vec<UserRow>,
}

/// The rows of users whom he is shown.
fn users_shown<G: ShowsState>(
    alloc: Global,
    gate: &G,
    viewer: UserName,
    rows: &[UserRow],
) -> Result<Vec<UserRow>, OutOfMemory>
    ensures { IfOk result (λ shown. shown.items ≡ filter (λ row. is_user_shown
        (G.state gate.now).policy (G.state gate.now).records viewer row.user) rows.now) }
{
    let mut shown = Vec::new(alloc);
    for row in rows {
        if is_user_shown(gate, viewer, row.user) {
            shown.push(*row)?;
        }
    }
    Ok(shown)
}

/// Those of the last records that concern what is his.
fn records_shown<G: ShowsState>(
    alloc: Global,
    gate: &G,
    viewer: UserName,
    ring: &HeapCircularBuffer<RecordData>,
) -> Result<Vec<RecordData>, OutOfMemory>
    ensures { IfOk result (λ shown. shown.items ≡ filter (is_record_shown
        (G.state gate.now).policy (G.state gate.now).records viewer) ring.now.items) }
{
    let mut shown = Vec::new(alloc);
    for left in ring {
        if is_record_shown(gate, viewer, left) {
            shown.push(*left)?;
        }
    }
    Ok(shown)
}

fn users_of<G: ShowsState>(
    alloc: Global,
    gate: &G,
    viewer: UserName,
) -> Result<Vec<UserRow>, OutOfMemory>
    ensures { IfOk result (λ shown. shown.items
        ≡ user_rows (G.state gate.now).policy (G.state gate.now).records viewer) }
{
    let rows = user_rows(alloc, gate)?;
    users_shown(alloc, gate, viewer, rows.as_slice())
}

/// What the viewer is shown of the gate's day as it stands. The summary has followed all its records.
///
/// # Errors
///
/// `OutOfMemory` where memory was refused.
pub fn view_of<G: ShowsRecords + ShowsState>(
    alloc: Global,
    gate: &G,
    summary: &Summary,
    viewer: UserName,
) -> Result<BoardView, OutOfMemory>
    requires summary { IsSummary (G.state gate.now).policy (G.state gate.now).records summary.now }
    ensures view { IfOk result
        (IsView (G.state gate.now).policy (G.state gate.now).records viewer) }
{
    let accounts = account_states(alloc, gate, summary.commands.as_slice(), viewer)?;
    let limits = limit_rows(alloc, gate, summary.commands.as_slice())?;
    let gross = gross_uses(alloc, gate, viewer)?;
    let net = net_uses(alloc, gate, viewer)?;
    let denied = Vec::from_slice(alloc, summary.denied.as_slice())?;
    let denials = records_shown(alloc, gate, viewer, &summary.last_denied)?;
    let commands = records_shown(alloc, gate, viewer, &summary.last_commands)?;
    let users = users_of(alloc, gate, viewer)?;
    Ok(BoardView {
        day: day_row(gate),
        counts: summary.counts,
        accounts,
        limits,
        gross,
        net,
        denied,
        denials,
        commands,
        users,
    })
}
