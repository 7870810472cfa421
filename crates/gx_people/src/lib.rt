//! The people of a policy while a day runs: who has which power, whose account it is, and which reader sees which
//! account now.
#![tactic(auto)]

mod accounts;
pub mod laws;
mod people;
mod person;
pub mod power;

pub use people::People;
