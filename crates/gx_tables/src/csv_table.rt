//! A table as CSV.

use crate::cell::{Cell, append_cell, append_decimal};
use crate::table::Table;
use csv::{ByteRecord, WriterBuilder};
use gx_text::append;
use gx_units::OutOfMemory;
use std::alloc::Global;

/// The line of CSV, with its end.
fn append_line(text: &mut Vec<u8>, alloc: Global, line: &ByteRecord) -> Result<(), OutOfMemory> {
    let mut writer = WriterBuilder::new().from_writer(Vec::new(alloc));
    if writer.write_byte_record(line).is_err() {
        return Err(OutOfMemory);
    }
    match writer.into_inner() {
        Ok(written) => append(text, written.as_slice()),
        Err(_) => Err(OutOfMemory),
    }
}

/// The line of the names of the columns: `table`, and then each column's.
fn heads_of(alloc: Global, table: &Table) -> Result<ByteRecord, OutOfMemory> {
    let mut line = ByteRecord::new(alloc);
    line.push_field(b"table")?;
    for name in table.kind.columns() {
        line.push_field(name.as_bytes())?;
    }
    Ok(line)
}

/// What a program reads in the place: a value in dollars with four digits behind the point, and nothing else in it.
fn append_plain_cell(text: &mut Vec<u8>, cell: Cell) -> Result<(), OutOfMemory> {
    match cell {
        Cell::Dollars(value) => append_decimal(text, value),
        _ => append_cell(text, cell),
    }
}

fn push_cells(
    line: &mut ByteRecord,
    alloc: Global,
    table: &Table,
    row: usize,
) -> Result<(), OutOfMemory> {
    for column in 0..table.width() {
        let mut shown = Vec::new(alloc);
        append_plain_cell(&mut shown, table.cell(row, column))?;
        line.push_field(shown.as_slice())?;
    }
    Ok(())
}

/// The line of a row: the table's name, and then each cell.
fn line_of(alloc: Global, table: &Table, row: usize) -> Result<ByteRecord, OutOfMemory> {
    let mut line = ByteRecord::new(alloc);
    line.push_field(table.kind.name().as_bytes())?;
    push_cells(&mut line, alloc, table, row)?;
    Ok(line)
}

fn append_rows(text: &mut Vec<u8>, alloc: Global, table: &Table) -> Result<(), OutOfMemory> {
    for row in 0..table.height() {
        let line = line_of(alloc, table, row)?;
        append_line(text, alloc, &line)?;
    }
    Ok(())
}

/// Puts the table at the end of the text: the names of its columns, and a line a row, each behind the table's name.
///
/// # Errors
///
/// `OutOfMemory` where memory was refused.
pub fn append_csv(text: &mut Vec<u8>, alloc: Global, table: &Table) -> Result<(), OutOfMemory> {
    let heads = heads_of(alloc, table)?;
    append_line(text, alloc, &heads)?;
    append_rows(text, alloc, table)
}
