//! The log of a day, as an operator reads it: lines for the records that matter to him, given as text or as JSON.
//!
//! - `event`: what a log tells;
//! - `limits`, `event_log`, `day`: what a log knows of the records before, the log, and that of a whole day;
//! - `judged`, `reached`: what is told of a record, and how full the day is;
//! - `words`, `fields`, `lines`: an event in words, as fields of a JSON object, and as a line;
//! - `laws`: what is so of every log, and the log of a sample day.
#![tactic(auto)]

mod day;
mod event;
mod event_log;
mod fields;
mod judged;
mod laws;
mod limits;
mod lines;
mod reached;
mod words;

pub use day::day_log;
pub use event::Event;
pub use event_log::EventLog;
pub use laws::{a_sample_day_is_told, events_are_lines, limits_are_in_force, logs_go_on};
pub use limits::{RuleLimit, counts_money};
