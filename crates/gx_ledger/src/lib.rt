//! What the file's rules count: open and executed shares and values, recent orders, last prices.
//!
//! A [`Ledger`] keeps no orders: its calls are handed the order. All its
//! memory is taken as it is opened.
#![tactic(auto)]

mod alike;
mod change;
mod enters;
mod figure_kind;
mod group;
mod groups;
pub mod laws;
mod ledger;
mod moments;
mod sides;
pub mod sums;
mod tables;
mod tally;
mod tally_places;

pub use ledger::Ledger;
