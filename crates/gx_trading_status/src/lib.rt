//! What a day's records say of lines, kills, the day's end and the clock, kept up to date record by record.
#![tactic(auto)]

pub mod laws;
mod status;

pub use status::TradingStatus;
