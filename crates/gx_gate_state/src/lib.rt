//! What a gate keeps of its records: people, rules, lines and kills, live orders, the order book,
//! the running figures and what each user was told.
//!
//! A [`GateState`] begins with a day, and does what each record does, of a request
//! ([`apply::apply_record`]) or of a matching step ([`matching::apply_match`]): first the places that
//! the record wants are reserved, then each table changes. Contracts see the tables as what their
//! definitions say of the records.
#![tactic(auto)]

pub mod apply;
mod commands;
mod ends;
pub mod listed;
pub mod matching;
pub mod next_record;
mod reports;
mod reserve;
mod settings;
mod state;

pub use state::GateState;
