//! Laws of the lines, each as what a function without a body ensures.

ghost use Rattle.gx_fields.specs.Laws.{LinesAreReadBack};

/// A reader of CSV finds in a line just the texts of the cells that it was written of, and behind it what stands behind it.
pub fn csv_lines_are_read_back()
    ensures { LinesAreReadBack }
{}
