//! A view as a Prometheus server reads it: the text format, version 0.0.4.

ghost use Rattle.std.specs.Prelude.{◌≡◌, ◌++◌, flat_map, OnOk};
ghost use Rattle.gx_status.specs.Metrics.{denied_family, denied_figure, denied_sample, family, figure, fills_figure, granted_figure, killed_family, killed_figure, killed_sample, left_family, left_figure, left_sample, lines_left_figure, live_family, live_figure, live_sample, records_figure, records_left_figure, sample_line, sample_of, sample_under, used_family, used_figure, used_sample, view_figures};

use crate::limits::{append_all_limits, append_all_net};
use gx_board::{AccountState, BoardView, Counts, DeniedRow, GrossUse};
use gx_overview::day::DayRow;
use gx_text::{append, append_json_name};
use gx_units::OutOfMemory;
use itoa::Buffer;

/// What a figure is: its name, what it says, and whether it is a counter, a gauge or a histogram.
#[tactic(auto, unfolding(crate::specs::Metrics::family))]
pub(crate) fn append_family(
    text: &mut Vec<u8>,
    name: &[u8],
    help: &[u8],
    kind: &[u8],
) -> Result<(), OutOfMemory>
    ensures { OnOk result
        (text.new.items ≡ text.old.items ++ family name.now help.now kind.now) }
{
    append(text, b"# HELP ")?;
    append(text, name)?;
    append(text, b" ")?;
    append(text, help)?;
    append(text, b"\n# TYPE ")?;
    append(text, name)?;
    append(text, b" ")?;
    append(text, kind)?;
    append(text, b"\n")
}

/// A sample without labels whose value may be larger.
#[tactic(auto, unfolding(crate::specs::Metrics::sample_line))]
pub(crate) fn append_large_sample(
    text: &mut Vec<u8>,
    name: &[u8],
    value: u128,
) -> Result<(), OutOfMemory>
    ensures { OnOk result (text.new.items ≡ text.old.items ++ sample_line name.now value) }
{
    let mut digits = Buffer::new();
    append(text, name)?;
    append(text, b" ")?;
    append(text, digits.format(value).as_bytes())?;
    append(text, b"\n")
}

/// A sample without labels.
fn append_sample(text: &mut Vec<u8>, name: &[u8], value: u64) -> Result<(), OutOfMemory>
    ensures { OnOk result (text.new.items ≡ text.old.items ++ sample_line name.now value) }
{
    append_large_sample(text, name, u128::from(value))
}

/// A sample of an account, of a rule or of a bucket, whose value may be larger.
pub(crate) fn append_large_sample_of(
    text: &mut Vec<u8>,
    name: &[u8],
    label: &[u8],
    labelled: &[u8],
    value: u128,
) -> Result<(), OutOfMemory>
    ensures { OnOk result (text.new.items
        ≡ text.old.items ++ sample_of name.now label.now labelled.now value) }
{
    let mut digits = Buffer::new();
    append(text, name)?;
    append(text, b"{")?;
    append(text, label)?;
    append(text, b"=")?;
    append_json_name(text, labelled)?;
    append(text, b"} ")?;
    append(text, digits.format(value).as_bytes())?;
    append(text, b"\n")
}

/// A sample of an account, or of a rule.
fn append_sample_of(
    text: &mut Vec<u8>,
    name: &[u8],
    label: &[u8],
    labelled: &[u8],
    value: u64,
) -> Result<(), OutOfMemory>
    ensures { OnOk result (text.new.items
        ≡ text.old.items ++ sample_of name.now label.now labelled.now value) }
{
    append_large_sample_of(text, name, label, labelled, u128::from(value))
}

#[tactic(auto, unfolding(crate::specs::Metrics::denied_sample))]
fn append_denied_sample(text: &mut Vec<u8>, row: &DeniedRow) -> Result<(), OutOfMemory>
    ensures { OnOk result (text.new.items ≡ text.old.items ++ denied_sample row.now) }
{
    append_sample_of(
        text,
        b"boskurige_denied_total",
        b"rule",
        &row.rule.bytes,
        row.count,
    )
}

#[tactic(auto, unfolding(crate::specs::Metrics::live_sample))]
fn append_live_sample(text: &mut Vec<u8>, row: &AccountState) -> Result<(), OutOfMemory>
    ensures { OnOk result (text.new.items ≡ text.old.items ++ live_sample row.now) }
{
    append_sample_of(
        text,
        b"boskurige_live_orders",
        b"account",
        &row.account.bytes,
        row.orders,
    )
}

/// How often each rule denied a request.
fn append_denied(text: &mut Vec<u8>, rows: &[DeniedRow]) -> Result<(), OutOfMemory>
    ensures { OnOk result
        (text.new.items ≡ text.old.items ++ flat_map denied_sample rows.now) }
{
    for row in rows {
        append_denied_sample(text, row)?;
    }
    Ok(())
}

/// How many orders each account has live.
fn append_live(text: &mut Vec<u8>, rows: &[AccountState]) -> Result<(), OutOfMemory>
    ensures { OnOk result (text.new.items ≡ text.old.items ++ flat_map live_sample rows.now) }
{
    for row in rows {
        append_live_sample(text, row)?;
    }
    Ok(())
}

#[tactic(auto, unfolding(crate::specs::Metrics::killed_sample))]
fn append_killed_sample(text: &mut Vec<u8>, row: &AccountState) -> Result<(), OutOfMemory>
    ensures { OnOk result (text.new.items ≡ text.old.items ++ killed_sample row.now) }
{
    let killed = if row.killed.is_killed { 1 } else { 0 };
    append_sample_of(
        text,
        b"boskurige_account_killed",
        b"account",
        &row.account.bytes,
        killed,
    )
}

/// Which accounts are killed.
fn append_killed(text: &mut Vec<u8>, rows: &[AccountState]) -> Result<(), OutOfMemory>
    ensures { OnOk result (text.new.items ≡ text.old.items ++ flat_map killed_sample rows.now) }
{
    for row in rows {
        append_killed_sample(text, row)?;
    }
    Ok(())
}

/// A sample of an account under a rule.
#[tactic(auto, unfolding(crate::specs::Metrics::sample_under))]
fn append_sample_under(
    text: &mut Vec<u8>,
    name: &[u8],
    rule: &[u8],
    account: &[u8],
    value: u128,
) -> Result<(), OutOfMemory>
    ensures { OnOk result (text.new.items
        ≡ text.old.items ++ sample_under name.now rule.now account.now value) }
{
    let mut digits = Buffer::new();
    append(text, name)?;
    append(text, b"{rule=")?;
    append_json_name(text, rule)?;
    append(text, b",account=")?;
    append_json_name(text, account)?;
    append(text, b"} ")?;
    append(text, digits.format(value).as_bytes())?;
    append(text, b"\n")
}

/// A figure of one sample.
pub(crate) fn append_figure(
    text: &mut Vec<u8>,
    name: &[u8],
    help: &[u8],
    kind: &[u8],
    value: u64,
) -> Result<(), OutOfMemory>
    ensures { OnOk result
        (text.new.items ≡ text.old.items ++ figure name.now help.now kind.now value) }
{
    append_family(text, name, help, kind)?;
    append_sample(text, name, value)
}

#[tactic(auto, unfolding(crate::specs::Metrics::records_figure))]
fn append_records(text: &mut Vec<u8>, counts: &Counts) -> Result<(), OutOfMemory>
    ensures { OnOk result (text.new.items ≡ text.old.items ++ records_figure counts.now) }
{
    append_figure(
        text,
        b"boskurige_records_total",
        b"Records of the day.",
        b"counter",
        counts.records,
    )
}

#[tactic(auto, unfolding(crate::specs::Metrics::granted_figure))]
fn append_granted(text: &mut Vec<u8>, counts: &Counts) -> Result<(), OutOfMemory>
    ensures { OnOk result (text.new.items ≡ text.old.items ++ granted_figure counts.now) }
{
    append_figure(
        text,
        b"boskurige_granted_total",
        b"Requests that were granted.",
        b"counter",
        counts.granted,
    )
}

#[tactic(auto, unfolding(crate::specs::Metrics::fills_figure))]
fn append_fills(text: &mut Vec<u8>, counts: &Counts) -> Result<(), OutOfMemory>
    ensures { OnOk result (text.new.items ≡ text.old.items ++ fills_figure counts.now) }
{
    append_figure(
        text,
        b"boskurige_fills_total",
        b"Fills.",
        b"counter",
        counts.fills,
    )
}

#[tactic(auto, unfolding(crate::specs::Metrics::records_left_figure))]
fn append_records_left(text: &mut Vec<u8>, day: &DayRow) -> Result<(), OutOfMemory>
    ensures { OnOk result (text.new.items ≡ text.old.items ++ records_left_figure day.now) }
{
    append_figure(
        text,
        b"boskurige_records_left",
        b"Records that may come.",
        b"gauge",
        day.left,
    )
}

#[tactic(auto, unfolding(crate::specs::Metrics::lines_left_figure))]
fn append_lines_left(text: &mut Vec<u8>, line: u16) -> Result<(), OutOfMemory>
    ensures { OnOk result (text.new.items ≡ text.old.items ++ lines_left_figure line) }
{
    append_figure(
        text,
        b"boskurige_lines_left",
        b"Connections that may come.",
        b"gauge",
        u64::from(u16::MAX - line),
    )
}

#[tactic(auto, unfolding(crate::specs::Metrics::denied_family))]
fn append_denied_family(text: &mut Vec<u8>) -> Result<(), OutOfMemory>
    ensures { OnOk result (text.new.items ≡ text.old.items ++ denied_family) }
{
    append_family(
        text,
        b"boskurige_denied_total",
        b"Requests that the rule denied.",
        b"counter",
    )
}

fn append_all_denied(text: &mut Vec<u8>, rows: &[DeniedRow]) -> Result<(), OutOfMemory>
    ensures { OnOk result (text.new.items ≡ text.old.items ++ denied_figure rows.now) }
{
    append_denied_family(text)?;
    append_denied(text, rows)
}

#[tactic(auto, unfolding(crate::specs::Metrics::live_family))]
fn append_live_family(text: &mut Vec<u8>) -> Result<(), OutOfMemory>
    ensures { OnOk result (text.new.items ≡ text.old.items ++ live_family) }
{
    append_family(
        text,
        b"boskurige_live_orders",
        b"Live orders of the account.",
        b"gauge",
    )
}

fn append_all_live(text: &mut Vec<u8>, rows: &[AccountState]) -> Result<(), OutOfMemory>
    ensures { OnOk result (text.new.items ≡ text.old.items ++ live_figure rows.now) }
{
    append_live_family(text)?;
    append_live(text, rows)
}

#[tactic(auto, unfolding(crate::specs::Metrics::killed_family))]
fn append_killed_family(text: &mut Vec<u8>) -> Result<(), OutOfMemory>
    ensures { OnOk result (text.new.items ≡ text.old.items ++ killed_family) }
{
    append_family(
        text,
        b"boskurige_account_killed",
        b"1 where the account is killed.",
        b"gauge",
    )
}

fn append_all_killed(text: &mut Vec<u8>, rows: &[AccountState]) -> Result<(), OutOfMemory>
    ensures { OnOk result (text.new.items ≡ text.old.items ++ killed_figure rows.now) }
{
    append_killed_family(text)?;
    append_killed(text, rows)
}

#[tactic(auto, unfolding(crate::specs::Metrics::used_sample))]
fn append_used_sample(text: &mut Vec<u8>, seen: &GrossUse) -> Result<(), OutOfMemory>
    ensures { OnOk result (text.new.items ≡ text.old.items ++ used_sample seen.now) }
{
    let value = seen.row.used.unwrap_or(0);
    append_sample_under(
        text,
        b"boskurige_limit_used",
        &seen.rule.bytes,
        &seen.row.account.bytes,
        value,
    )
}

fn append_used(text: &mut Vec<u8>, rows: &[GrossUse]) -> Result<(), OutOfMemory>
    ensures { OnOk result (text.new.items ≡ text.old.items ++ flat_map used_sample rows.now) }
{
    for row in rows {
        append_used_sample(text, row)?;
    }
    Ok(())
}

#[tactic(auto, unfolding(crate::specs::Metrics::used_family))]
fn append_used_family(text: &mut Vec<u8>) -> Result<(), OutOfMemory>
    ensures { OnOk result (text.new.items ≡ text.old.items ++ used_family) }
{
    append_family(
        text,
        b"boskurige_limit_used",
        b"Used of a gross limit.",
        b"gauge",
    )
}

fn append_all_used(text: &mut Vec<u8>, rows: &[GrossUse]) -> Result<(), OutOfMemory>
    ensures { OnOk result (text.new.items ≡ text.old.items ++ used_figure rows.now) }
{
    append_used_family(text)?;
    append_used(text, rows)
}

#[tactic(auto, unfolding(crate::specs::Metrics::left_sample))]
fn append_left_sample(text: &mut Vec<u8>, seen: &GrossUse) -> Result<(), OutOfMemory>
    ensures { OnOk result (text.new.items ≡ text.old.items ++ left_sample seen.now) }
{
    let value = seen.row.left.unwrap_or(0);
    append_sample_under(
        text,
        b"boskurige_limit_left",
        &seen.rule.bytes,
        &seen.row.account.bytes,
        value,
    )
}

fn append_left(text: &mut Vec<u8>, rows: &[GrossUse]) -> Result<(), OutOfMemory>
    ensures { OnOk result (text.new.items ≡ text.old.items ++ flat_map left_sample rows.now) }
{
    for row in rows {
        append_left_sample(text, row)?;
    }
    Ok(())
}

#[tactic(auto, unfolding(crate::specs::Metrics::left_family))]
fn append_left_family(text: &mut Vec<u8>) -> Result<(), OutOfMemory>
    ensures { OnOk result (text.new.items ≡ text.old.items ++ left_family) }
{
    append_family(
        text,
        b"boskurige_limit_left",
        b"Left of a gross limit.",
        b"gauge",
    )
}

fn append_all_left(text: &mut Vec<u8>, rows: &[GrossUse]) -> Result<(), OutOfMemory>
    ensures { OnOk result (text.new.items ≡ text.old.items ++ left_figure rows.now) }
{
    append_left_family(text)?;
    append_left(text, rows)
}

/// Puts the figures of a view at the end of the text, as a Prometheus server reads them.
///
/// # Errors
///
/// `OutOfMemory` where memory was refused; then a part of them may stand at the end of the text.
pub fn append_figures(text: &mut Vec<u8>, view: &BoardView) -> Result<(), OutOfMemory>
    ensures { OnOk result (text.new.items ≡ text.old.items ++ view_figures view.now) }
{
    append_records(text, &view.counts)?;
    append_granted(text, &view.counts)?;
    append_fills(text, &view.counts)?;
    append_records_left(text, &view.day)?;
    append_lines_left(text, view.counts.highest_line)?;
    append_all_denied(text, view.denied.as_slice())?;
    append_all_live(text, view.accounts.as_slice())?;
    append_all_killed(text, view.accounts.as_slice())?;
    append_all_limits(text, view.limits.as_slice())?;
    append_all_used(text, view.gross.as_slice())?;
    append_all_left(text, view.gross.as_slice())?;
    append_all_net(text, view.net.as_slice())
}
