//! What who follows a day's journal is told as its records come: the lines of the server's own log, and a line for each share
//! of a limit that is passed.
#![tactic(auto)]

mod day_log;
mod fields;
mod lines;
mod monitor;
mod words;

pub use day_log::DayLog;
pub use lines::append_warning_line;
pub use monitor::Monitor;
