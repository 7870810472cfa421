//! A table in columns, for a person.

use crate::cell::{Cell, append_cell};
use crate::table::Table;
use gx_text::append;
use gx_units::OutOfMemory;
use std::alloc::Global;

/// What a person reads in the place.
fn text_of(alloc: Global, cell: Cell) -> Result<Vec<u8>, OutOfMemory> {
    let mut text = Vec::new(alloc);
    append_cell(&mut text, cell)?;
    Ok(text)
}

/// How many characters the widest cell of the column has.
fn width_of(alloc: Global, table: &Table, column: usize, name: &str) -> Result<usize, OutOfMemory> {
    let mut width = name.len();
    for row in 0..table.height() {
        let text = text_of(alloc, table.cell(row, column))?;
        width = width.max(text.len());
    }
    Ok(width)
}

/// The width of each column.
fn widths_of(alloc: Global, table: &Table) -> Result<Vec<usize>, OutOfMemory> {
    let mut widths = Vec::new(alloc);
    for (column, name) in table.kind.columns().iter().enumerate() {
        widths.push(width_of(alloc, table, column, name)?)?;
    }
    Ok(widths)
}

fn append_spaces(text: &mut Vec<u8>, count: usize) -> Result<(), OutOfMemory> {
    for _ in 0..count {
        append(text, b" ")?;
    }
    Ok(())
}

/// A cell in a field of so many characters: a number at its right end.
fn append_field(
    text: &mut Vec<u8>,
    shown: &[u8],
    width: usize,
    is_number: bool,
) -> Result<(), OutOfMemory> {
    let spaces = width.saturating_sub(shown.len());
    append(text, b"  ")?;
    if is_number {
        append_spaces(text, spaces)?;
        return append(text, shown);
    }
    append(text, shown)?;
    append_spaces(text, spaces)
}

/// The names of the columns, each above its own.
fn append_heads(text: &mut Vec<u8>, table: &Table, widths: &[usize]) -> Result<(), OutOfMemory> {
    for (column, (name, width)) in table.kind.columns().iter().zip(widths).enumerate() {
        let is_number = table.cell(0, column).is_number();
        append_field(text, name.as_bytes(), *width, is_number)?;
    }
    append(text, b"\n")
}

fn append_row(
    text: &mut Vec<u8>,
    alloc: Global,
    table: &Table,
    row: usize,
    widths: &[usize],
) -> Result<(), OutOfMemory> {
    for (column, width) in widths.iter().enumerate() {
        let cell = table.cell(row, column);
        let shown = text_of(alloc, cell)?;
        append_field(text, shown.as_slice(), *width, cell.is_number())?;
    }
    append(text, b"\n")
}

fn append_rows(
    text: &mut Vec<u8>,
    alloc: Global,
    table: &Table,
    widths: &[usize],
) -> Result<(), OutOfMemory> {
    for row in 0..table.height() {
        append_row(text, alloc, table, row, widths)?;
    }
    Ok(())
}

/// Puts the table at the end of the text: its title, the names of its columns, and a line a row.
///
/// # Errors
///
/// `OutOfMemory` where memory was refused.
pub fn append_columns(text: &mut Vec<u8>, alloc: Global, table: &Table) -> Result<(), OutOfMemory> {
    let widths = widths_of(alloc, table)?;
    append(text, table.kind.title().as_bytes())?;
    append(text, b"\n")?;
    append_heads(text, table, widths.as_slice())?;
    append_rows(text, alloc, table, widths.as_slice())
}
