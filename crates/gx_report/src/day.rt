//! The day itself.

use gx_history::records::Records;
use gx_overview::day::day_row;
use gx_records::{ShowsRecords, ShowsState};
use gx_tables::{Cell, Table, TableKind, name_of};
use gx_units::{Moment, OutOfMemory};
use std::alloc::Global;

/// The moment of the first record; 0 where there is none.
pub(crate) fn first_moment(records: &Records<'_>) -> Moment {
    match records.get(0) {
        Some(record) => record.content().moment,
        None => 0,
    }
}

/// The one row of the day.
pub(crate) fn day_table<G: ShowsRecords + ShowsState>(
    alloc: Global,
    gate: &G,
) -> Result<Table, OutOfMemory> {
    let mut table = Table::new(alloc, TableKind::Day);
    let day = day_row(gate);
    table.push(&[
        Cell::Name(name_of(&gate.policy().session().bytes)),
        Cell::Count(day.records),
        Cell::Moment(first_moment(&gate.shown_records())),
        Cell::Moment(day.moment),
        Cell::Name(name_of(if day.is_closed { b"closed" } else { b"open" })),
    ])?;
    Ok(table)
}
