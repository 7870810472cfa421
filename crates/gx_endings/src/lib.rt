//! What is known of a day only while its records are made again: how many live orders each Kill and each Close Day ended,
//! by which of these an order ended, and what stood in front of each command. Each looks on ([`Watches`](gx_records::Watches)) at the gate in front of every
//! record, and keeps a list that is an equation with its definition over the records.
#![tactic(auto)]

mod both;
pub mod commands;
pub mod endings;
mod lists;
pub mod order_ends;

pub use both::Both;
