//! The records of an audit for a person: which of them are shown, and how.
#![tactic(auto)]

mod asking;
mod choice;
mod choosing;
mod commands;
mod known_order;
mod known_orders;
mod making;
mod naming;
mod reading;
mod showing;
mod style;
mod table;

pub use asking::{AskedNames, UnknownName, choice_of, is_known_in_capitals};
pub use choice::{Choice, OrderLife};
pub use choosing::chosen_records;
pub use known_order::KnownOrder;
pub use naming::{account_in, rule_known, stock_in, user_known};
pub use reading::{AuditRecords, FindingFault, found_in_audit, read_records};
pub use showing::write_records;
pub use style::{ShownForm, Style};
pub use table::{record_csv, record_json, shown_cells};
