//! The live orders of a day in rows that stay where they are, found by number.
#![tactic(auto)]

pub mod live;
mod places;
mod rows;
pub mod table;
