//! What was done in a day, as rows: how often, by whom, in which stock, at what times. Each number of a row is an equation
//! with its definition over the records, and each table is made by one pass over them.
#![tactic(auto)]

pub mod activity;
mod deeds;
pub mod denials;
mod listing;
pub mod positions;
pub mod spans;
