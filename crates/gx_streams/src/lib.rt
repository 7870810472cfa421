//! What each user is told: his reports in order, with places reserved for more, so that reports that
//! are owed can always be put there; and each fill once, for all who are told of it.
#![tactic(auto)]

mod details;
mod entries;
pub mod fill;
pub mod laws;
mod reader;
mod readers;
mod recorded;
mod report_lists;
mod slot;
mod span;
mod stored_report;
mod stream;
mod streams;
mod window;

pub use streams::Streams;
