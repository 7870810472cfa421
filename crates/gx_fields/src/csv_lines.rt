//! Lines of CSV.

ghost use Rattle.std.specs.Prelude.{◌≡◌, map, IfOk};
ghost use Rattle.csv.specs.{Records.fields_of, Writing.{default_writer, row_text}};
ghost use Rattle.gx_fields.specs.Cells.{cell_text};

use crate::cell::{Cell, NAMES};
use crate::texts::cell_text;
use csv::{ByteRecord, WriterBuilder};
use gx_units::OutOfMemory;
use std::alloc::Global;

/// The texts of cells, as a record of CSV.
fn record_of_cells(alloc: Global, cells: &[Cell]) -> Result<ByteRecord, OutOfMemory>
    ensures { IfOk result (λ row. fields_of row ≡ map cell_text cells.now) }
{
    let mut row = ByteRecord::new(alloc);
    for cell in cells {
        let text = cell_text(alloc, cell)?;
        row.push_field(text.as_slice())?;
    }
    Ok(row)
}

/// A record as a line of CSV, with the end of the line.
fn line_of(alloc: Global, row: &ByteRecord) -> Result<Vec<u8>, OutOfMemory>
    ensures { IfOk result (λ line. line.items ≡ row_text default_writer (fields_of row.now)) }
{
    let mut writer = WriterBuilder::new().from_writer(Vec::new(alloc));
    if writer.write_byte_record(row).is_err() {
        return Err(OutOfMemory);
    }
    match writer.into_inner() {
        Ok(line) => Ok(line),
        Err(_) => Err(OutOfMemory),
    }
}

/// The cells as a line of CSV, with the end of the line.
///
/// # Errors
///
/// `OutOfMemory` where memory was refused.
pub fn csv_line(alloc: Global, cells: &[Cell]) -> Result<Vec<u8>, OutOfMemory>
    ensures { IfOk result (λ line.
        line.items ≡ row_text default_writer (map cell_text cells.now)) }
{
    let row = record_of_cells(alloc, cells)?;
    line_of(alloc, &row)
}

/// The names of the cells as a line of CSV.
///
/// # Errors
///
/// `OutOfMemory` where memory was refused.
pub fn csv_names(alloc: Global) -> Result<Vec<u8>, OutOfMemory> {
    let mut row = ByteRecord::new(alloc);
    for name in &NAMES {
        row.push_field(name.as_bytes())?;
    }
    line_of(alloc, &row)
}
