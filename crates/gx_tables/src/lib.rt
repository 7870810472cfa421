//! Tables of a day's report, and how each is written: in columns for a person, as CSV, as JSON, and as HTML.
//!
//! - `cell`: what stands in a place of a table;
//! - `kind`: which tables there are, and their columns;
//! - `table`: rows of cells;
//! - `columns`, `csv_table`, `json_table`, `html_table`: a table in each form.
#![tactic(auto)]

mod cell;
mod columns;
mod csv_table;
mod html_table;
mod json_table;
mod kind;
mod table;

pub use cell::{Cell, Name, append_cell, append_integer, name_of};
pub use columns::append_columns;
pub use csv_table::append_csv;
pub use html_table::{append_escaped, append_html};
pub use json_table::append_json;
pub use kind::TableKind;
pub use table::Table;
