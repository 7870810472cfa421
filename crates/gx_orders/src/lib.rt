//! The live orders while a day runs: found by number, by token, and the first that waits to be matched.
#![tactic(auto)]

mod counts;
mod ending;
pub mod laws;
mod numbers;
mod orders;
pub mod request_tokens;
pub mod seed;

pub use orders::Orders;
