//! What rules denied, and orders, fills and denials over the day.

use crate::spans::Spans;
use gx_activity::denials::{DenialRow, denial_rows};
use gx_activity::spans::{SpanRow, span_rows};
use gx_records::ShowsRecords;
use gx_tables::{Cell, Table, TableKind, name_of};
use gx_units::OutOfMemory;
use std::alloc::Global;

fn denial_cells(row: &DenialRow) -> [Cell; 3] {
    let account = match row.denial.account {
        Some(account) => Cell::Name(name_of(&account.bytes)),
        None => Cell::Empty,
    };
    [
        Cell::Name(name_of(&row.denial.rule.bytes)),
        account,
        Cell::Count(row.count),
    ]
}

/// A row for each rule and account whose requests it denied.
pub(crate) fn denials_table<G: ShowsRecords>(
    alloc: Global,
    gate: &G,
) -> Result<Table, OutOfMemory> {
    let mut table = Table::new(alloc, TableKind::Denials);
    let rows = denial_rows(alloc, gate)?;
    for row in rows.as_slice() {
        table.push(&denial_cells(row))?;
    }
    Ok(table)
}

/// What there was in each span.
pub(crate) fn counts_of<G: ShowsRecords>(
    alloc: Global,
    gate: &G,
    spans: Spans,
) -> Result<Vec<SpanRow>, OutOfMemory> {
    let count = spans.count.min(64) as usize;
    span_rows(
        alloc,
        &gate.shown_records(),
        spans.from,
        spans.width.max(1),
        count,
    )
}

/// A row for each span.
pub(crate) fn spans_table(
    alloc: Global,
    spans: Spans,
    counts: &[SpanRow],
) -> Result<Table, OutOfMemory> {
    let mut table = Table::new(alloc, TableKind::Spans);
    for (place, row) in counts.iter().enumerate() {
        table.push(&[
            Cell::Moment(spans.begin(place as u64)),
            Cell::Count(row.orders),
            Cell::Count(row.fills),
            Cell::Count(row.denials),
        ])?;
    }
    Ok(table)
}
