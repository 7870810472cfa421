//! The records of an audit as rows of fields, and the lines of CSV and of JSON that show them.
#![tactic(auto)]

mod cell;
mod csv_lines;
mod json_lines;
mod laws;
mod reasons;
mod row;
mod row_making;
mod row_reading;
mod texts;

pub use cell::{Beside, CELLS, Cell, EndedOrders, NAMES, cells_of};
pub use csv_lines::{csv_line, csv_names};
pub use json_lines::json_line;
pub use laws::csv_lines_are_read_back;
pub use reasons::{Reason, reason_of, reject_of};
pub use row::{Row, RowKind, RowVerdict};
pub use row_making::row_of;
pub use row_reading::record_of;
pub use texts::{append_cell, cell_text};
