//! Limits, and what is used of net ones, as a Prometheus server reads them.

ghost use Rattle.std.specs.Prelude.{◌≡◌, ◌++◌, flat_map, OnOk};
ghost use Rattle.gx_status.specs.Metrics.{limit_family, limit_figure, limit_sample, net_family, net_figure, net_labels, net_sample, sample_on, side_labels, side_sample, value_end};

use crate::metrics::{append_family, append_large_sample_of};
use gx_board::NetUse;
use gx_overview::rules::LimitRow;
use gx_text::{append, append_json_name};
use gx_units::OutOfMemory;
use itoa::Buffer;

#[tactic(auto, unfolding(crate::specs::Metrics::limit_sample))]
fn append_limit_sample(text: &mut Vec<u8>, row: &LimitRow) -> Result<(), OutOfMemory>
    ensures { OnOk result (text.new.items ≡ text.old.items ++ limit_sample row.now) }
{
    match row.limit {
        Some(limit) => append_large_sample_of(
            text,
            b"boskurige_limit",
            b"rule",
            &row.rule.bytes,
            u128::from(limit),
        ),
        None => Ok(()),
    }
}

fn append_limits(text: &mut Vec<u8>, rows: &[LimitRow]) -> Result<(), OutOfMemory>
    ensures { OnOk result
        (text.new.items ≡ text.old.items ++ flat_map limit_sample rows.now) }
{
    for row in rows {
        append_limit_sample(text, row)?;
    }
    Ok(())
}

#[tactic(auto, unfolding(crate::specs::Metrics::limit_family))]
fn append_limit_family(text: &mut Vec<u8>) -> Result<(), OutOfMemory>
    ensures { OnOk result (text.new.items ≡ text.old.items ++ limit_family) }
{
    append_family(text, b"boskurige_limit", b"The limit in force.", b"gauge")
}

/// The limit of each rule that has one in force.
pub(crate) fn append_all_limits(text: &mut Vec<u8>, rows: &[LimitRow]) -> Result<(), OutOfMemory>
    ensures { OnOk result (text.new.items ≡ text.old.items ++ limit_figure rows.now) }
{
    append_limit_family(text)?;
    append_limits(text, rows)
}

/// Which rule, account and stock.
#[tactic(auto, unfolding(crate::specs::Metrics::net_labels))]
fn append_net_labels(text: &mut Vec<u8>, seen: &NetUse) -> Result<(), OutOfMemory>
    ensures { OnOk result (text.new.items ≡ text.old.items ++ net_labels seen.now) }
{
    append(text, b"rule=")?;
    append_json_name(text, &seen.rule.bytes)?;
    append(text, b",account=")?;
    append_json_name(text, &seen.account.bytes)?;
    append(text, b",stock=")?;
    append_json_name(text, &seen.row.stock.bytes)
}

/// Of which side.
#[tactic(auto, unfolding(crate::specs::Metrics::side_labels))]
fn append_side_labels(text: &mut Vec<u8>, seen: &NetUse, side: &[u8]) -> Result<(), OutOfMemory>
    ensures { OnOk result (text.new.items ≡ text.old.items ++ side_labels seen.now side.now) }
{
    append(text, b"{")?;
    append_net_labels(text, seen)?;
    append(text, b",side=\"")?;
    append(text, side)?;
    append(text, b"\"}")
}

/// The value of a sample, which may be below 0, and the end of its line.
#[tactic(auto, unfolding(crate::specs::Metrics::value_end))]
fn append_value(text: &mut Vec<u8>, value: i128) -> Result<(), OutOfMemory>
    ensures { OnOk result (text.new.items ≡ text.old.items ++ value_end value) }
{
    let mut digits = Buffer::new();
    append(text, b" ")?;
    append(text, digits.format(value).as_bytes())?;
    append(text, b"\n")
}

/// A sample of a side of a stock.
#[tactic(auto, unfolding(crate::specs::Metrics::sample_on))]
fn append_sample_on(
    text: &mut Vec<u8>,
    name: &[u8],
    seen: &NetUse,
    side: &[u8],
    value: i128,
) -> Result<(), OutOfMemory>
    ensures { OnOk result
        (text.new.items ≡ text.old.items ++ sample_on name.now seen.now side.now value) }
{
    append(text, name)?;
    append_side_labels(text, seen, side)?;
    append_value(text, value)
}

/// What is used of a net limit on a side of a stock, where anything is told of it.
#[tactic(auto, unfolding(crate::specs::Metrics::side_sample))]
fn append_side(
    text: &mut Vec<u8>,
    seen: &NetUse,
    side: &[u8],
    used: Option<i128>,
) -> Result<(), OutOfMemory>
    ensures { OnOk result
        (text.new.items ≡ text.old.items ++ side_sample seen.now side.now used) }
{
    match used {
        Some(used) => append_sample_on(text, b"boskurige_net_used", seen, side, used),
        None => Ok(()),
    }
}

#[tactic(auto, unfolding(crate::specs::Metrics::net_sample))]
fn append_net_sample(text: &mut Vec<u8>, seen: &NetUse) -> Result<(), OutOfMemory>
    ensures { OnOk result (text.new.items ≡ text.old.items ++ net_sample seen.now) }
{
    append_side(text, seen, b"buys", seen.row.buys)?;
    append_side(text, seen, b"sells", seen.row.sells)
}

fn append_net(text: &mut Vec<u8>, rows: &[NetUse]) -> Result<(), OutOfMemory>
    ensures { OnOk result (text.new.items ≡ text.old.items ++ flat_map net_sample rows.now) }
{
    for row in rows {
        append_net_sample(text, row)?;
    }
    Ok(())
}

#[tactic(auto, unfolding(crate::specs::Metrics::net_family))]
fn append_net_family(text: &mut Vec<u8>) -> Result<(), OutOfMemory>
    ensures { OnOk result (text.new.items ≡ text.old.items ++ net_family) }
{
    append_family(
        text,
        b"boskurige_net_used",
        b"Used of a net limit.",
        b"gauge",
    )
}

/// What is used of net limits, in each stock in which anything is.
pub(crate) fn append_all_net(text: &mut Vec<u8>, rows: &[NetUse]) -> Result<(), OutOfMemory>
    ensures { OnOk result (text.new.items ≡ text.old.items ++ net_figure rows.now) }
{
    append_net_family(text)?;
    append_net(text, rows)
}
