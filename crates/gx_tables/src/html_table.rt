//! A table as HTML.

use crate::cell::{Cell, append_cell};
use crate::table::Table;
use gx_text::append;
use gx_units::OutOfMemory;
use std::alloc::Global;

/// A byte of a text between tags.
fn append_escaped_byte(text: &mut Vec<u8>, byte: u8) -> Result<(), OutOfMemory> {
    match byte {
        b'&' => append(text, b"&amp;"),
        b'<' => append(text, b"&lt;"),
        b'>' => append(text, b"&gt;"),
        b'"' => append(text, b"&quot;"),
        b'\'' => append(text, b"&#39;"),
        _ => append(text, &[byte]),
    }
}

/// Puts a text at the end of another so that HTML shows it as it is, also within an attribute's quotes.
///
/// # Errors
///
/// `OutOfMemory` where memory was refused; then a part of it may stand at the end of the text.
pub fn append_escaped(text: &mut Vec<u8>, shown: &[u8]) -> Result<(), OutOfMemory> {
    for byte in shown {
        append_escaped_byte(text, *byte)?;
    }
    Ok(())
}

/// The tag that begins a cell: a number stands at the right end.
fn begins(cell: Cell) -> &'static [u8] {
    if cell.is_number() {
        b"<td class=n>"
    } else {
        b"<td>"
    }
}

fn append_shown_cell(text: &mut Vec<u8>, alloc: Global, cell: Cell) -> Result<(), OutOfMemory> {
    let mut shown = Vec::new(alloc);
    append_cell(&mut shown, cell)?;
    append(text, begins(cell))?;
    append_escaped(text, shown.as_slice())
}

fn append_row_cells(
    text: &mut Vec<u8>,
    alloc: Global,
    table: &Table,
    row: usize,
) -> Result<(), OutOfMemory> {
    for column in 0..table.width() {
        append_shown_cell(text, alloc, table.cell(row, column))?;
    }
    Ok(())
}

fn append_rows(text: &mut Vec<u8>, alloc: Global, table: &Table) -> Result<(), OutOfMemory> {
    for row in 0..table.height() {
        append(text, b"\n<tr>")?;
        append_row_cells(text, alloc, table, row)?;
    }
    Ok(())
}

/// A byte of a column's name: words of it stand apart.
fn spaced(byte: u8) -> u8 {
    if byte == b'_' { b' ' } else { byte }
}

fn append_head(text: &mut Vec<u8>, name: &str, cell: Cell) -> Result<(), OutOfMemory> {
    append(
        text,
        if cell.is_number() {
            b"<th scope=col class=n>"
        } else {
            b"<th scope=col>"
        },
    )?;
    for byte in name.as_bytes() {
        append(text, &[spaced(*byte)])?;
    }
    Ok(())
}

fn append_heads(text: &mut Vec<u8>, table: &Table) -> Result<(), OutOfMemory> {
    for (column, name) in table.kind.columns().iter().enumerate() {
        append_head(text, name, table.cell(0, column))?;
    }
    Ok(())
}

/// Puts the table at the end of the text as an HTML table, with its title as its caption.
///
/// # Errors
///
/// `OutOfMemory` where memory was refused.
pub fn append_html(text: &mut Vec<u8>, alloc: Global, table: &Table) -> Result<(), OutOfMemory> {
    append(text, b"\n<table><caption>")?;
    append(text, table.kind.title().as_bytes())?;
    append(text, b"</caption>\n<thead><tr>")?;
    append_heads(text, table)?;
    append(text, b"</thead><tbody>")?;
    append_rows(text, alloc, table)?;
    append(text, b"\n</tbody></table>\n")
}
