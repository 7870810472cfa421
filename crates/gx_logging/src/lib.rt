//! The log of the records that are made at a door: their lines as a definition gives them, in their order, none left out.
#![tactic(auto)]

mod record_log;

pub use record_log::RecordLog;
