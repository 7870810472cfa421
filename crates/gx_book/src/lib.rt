//! The book: the orders that rest, per listed stock and side in price-time priority.
#![tactic(auto)]

mod book;
pub mod laws;
pub mod resting;
mod side;
mod sides;

pub use book::Book;
