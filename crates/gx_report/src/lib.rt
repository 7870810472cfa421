//! The report of a day: tables of what accounts did, of the most that was used of each limit, of what officers asked for and
//! of what rules denied, charts over the day, and how all of it is written.
//!
//! - `samples`: how much of gross limits was used at some times of the day;
//! - `looking`: who looks on while the day's records are made again;
//! - `spans`: the times of the day at which samples are taken and orders counted;
//! - `accounts`, `limits`, `commands`, `denials`, `day`: the tables;
//! - `report`: all of them together;
//! - `page`, `charts`: the report as a page of HTML;
//! - `parts`: texts that are put together of parts;
//! - `writing`: the report in each form;
//! - `making`: from an audit to its report.
#![tactic(auto)]

mod accounts;
mod charts;
mod commands;
mod day;
mod denials;
mod limits;
mod looking;
mod making;
mod page;
mod parts;
mod report;
pub mod samples;
mod spans;
mod writing;

pub use looking::{Desk, ReportWatch, watch_for};
pub use making::day_report;
pub use report::{DayReport, Digests, report_of};
pub use spans::Spans;
pub use writing::{ReportForm, written};
