//! Lines of JSON.

ghost use Rattle.std.specs.Prelude.{◌≡◌};
ghost use Rattle.gx_fields.specs.Cells.{number_in};

use crate::cell::{Cell, NAMES};
use crate::texts::cell_text;
use gx_units::OutOfMemory;
use serde_json::{Map, Number, Value, put};
use std::alloc::Global;
use std::str;

/// The number in a cell, if it has one.
fn number_in(cell: &Cell) -> Option<u64>
    ensures { result ≡ number_in cell.now }
{
    match cell {
        Cell::Number(number) => *number,
        Cell::Number32(Some(number)) => Some(u64::from(*number)),
        Cell::Number16(Some(number)) => Some(u64::from(*number)),
        Cell::Number8(Some(number)) => Some(u64::from(*number)),
        _ => None,
    }
}

/// The text as a string of JSON.
fn string_value(alloc: Global, text: &[u8]) -> Result<Value, OutOfMemory> {
    let text = str::from_utf8(text).unwrap_or("");
    Ok(Value::String(String::from_str(alloc, text)?))
}

/// Puts the cell under its name, if it has a value: a number as one, any other as a string of its text.
fn put_cell(
    alloc: Global,
    members: &mut Map<String, Value>,
    name: &str,
    cell: &Cell,
) -> Result<(), OutOfMemory> {
    if let Some(number) = number_in(cell) {
        put(members, alloc, name, Value::Number(Number::from(number)))?;
        return Ok(());
    }
    let text = cell_text(alloc, cell)?;
    if text.is_empty() {
        return Ok(());
    }
    let value = string_value(alloc, text.as_slice())?;
    put(members, alloc, name, value)?;
    Ok(())
}

/// Puts each cell that has a value under its name.
fn put_cells(
    alloc: Global,
    members: &mut Map<String, Value>,
    cells: &[Cell],
) -> Result<(), OutOfMemory> {
    for (name, cell) in NAMES.iter().zip(cells) {
        put_cell(alloc, members, name, cell)?;
    }
    Ok(())
}

/// The cells as a line of JSON, with the end of the line: an object with a member for each cell that has a value, under its
/// name.
///
/// # Errors
///
/// `OutOfMemory` where memory was refused.
pub fn json_line(alloc: Global, cells: &[Cell]) -> Result<Vec<u8>, OutOfMemory> {
    let mut members = Map::new(alloc);
    put_cells(alloc, &mut members, cells)?;
    let text = Value::Object(members).to_string(alloc)?;
    let mut line = text.into_bytes();
    line.push(b'\n')?;
    Ok(line)
}
