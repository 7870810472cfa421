//! Rows of cells.

use crate::cell::Cell;
use crate::kind::TableKind;
use gx_units::OutOfMemory;
use std::alloc::Global;

/// A table: rows of as many cells as it has columns.
#[derive(Drop)]
pub struct Table {
    /// Which columns it has.
    pub kind: TableKind,
    /// Row by row.
    pub cells: Vec<Cell>,
}

impl Table {
    /// With no rows.
    pub fn new(alloc: Global, kind: TableKind) -> Table {
        Table {
            kind,
            cells: Vec::new(alloc),
        }
    }

    /// Puts a row last.
    ///
    /// # Errors
    ///
    /// `OutOfMemory` where the cells were refused their memory.
    pub fn push(&mut self, row: &[Cell]) -> Result<(), OutOfMemory> {
        self.cells.extend_from_slice(row)?;
        Ok(())
    }

    /// How many columns it has.
    pub(crate) fn width(&self) -> usize {
        self.kind.columns().len()
    }

    /// How many rows it has.
    pub(crate) fn height(&self) -> usize {
        let width = self.width();
        if width == 0 {
            0
        } else {
            self.cells.len() / width
        }
    }

    /// What stands in this row and column, from 0.
    pub(crate) fn cell(&self, row: usize, column: usize) -> Cell {
        let place = row.saturating_mul(self.width()).saturating_add(column);
        match self.cells.get(place) {
            Some(cell) => *cell,
            None => Cell::Empty,
        }
    }
}
