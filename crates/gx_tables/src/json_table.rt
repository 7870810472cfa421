//! A table as JSON.

use crate::cell::{Cell, append_cell, append_integer};
use crate::table::Table;
use gx_text::{append, append_json_name};
use gx_units::OutOfMemory;

/// Puts a comma in front of each item but the first.
fn append_comma(text: &mut Vec<u8>, place: usize) -> Result<(), OutOfMemory> {
    if place > 0 {
        append(text, b",")?;
    }
    Ok(())
}

/// A number as one, a value in ten-thousandths of a dollar, a part in those of the reference price; a name or a moment as a
/// string; `null` where there is none.
fn append_value(text: &mut Vec<u8>, cell: Cell) -> Result<(), OutOfMemory> {
    match cell {
        Cell::Empty => append(text, b"null"),
        Cell::Name(name) => append_json_name(text, &name.bytes),
        Cell::Dollars(value) => append_integer(text, value),
        Cell::Parts(parts) => append_integer(text, parts),
        Cell::Moment(_) => append_quoted(text, cell),
        _ => append_cell(text, cell),
    }
}

fn append_quoted(text: &mut Vec<u8>, cell: Cell) -> Result<(), OutOfMemory> {
    append(text, b"\"")?;
    append_cell(text, cell)?;
    append(text, b"\"")
}

fn append_member(
    text: &mut Vec<u8>,
    column: usize,
    name: &str,
    cell: Cell,
) -> Result<(), OutOfMemory> {
    append_comma(text, column)?;
    append_json_name(text, name.as_bytes())?;
    append(text, b":")?;
    append_value(text, cell)
}

fn append_members(text: &mut Vec<u8>, table: &Table, row: usize) -> Result<(), OutOfMemory> {
    for (column, name) in table.kind.columns().iter().enumerate() {
        append_member(text, column, name, table.cell(row, column))?;
    }
    Ok(())
}

fn append_row(text: &mut Vec<u8>, table: &Table, row: usize) -> Result<(), OutOfMemory> {
    append_comma(text, row)?;
    append(text, b"{")?;
    append_members(text, table, row)?;
    append(text, b"}")
}

fn append_rows(text: &mut Vec<u8>, table: &Table) -> Result<(), OutOfMemory> {
    for row in 0..table.height() {
        append_row(text, table, row)?;
    }
    Ok(())
}

/// Puts the table at the end of the text as a member of an object: its name, and a list of an object a row. Values are in
/// ten-thousandths of a dollar.
///
/// # Errors
///
/// `OutOfMemory` where memory was refused.
pub fn append_json(text: &mut Vec<u8>, table: &Table) -> Result<(), OutOfMemory> {
    append_json_name(text, table.kind.name().as_bytes())?;
    append(text, b":[")?;
    append_rows(text, table)?;
    append(text, b"]")
}
