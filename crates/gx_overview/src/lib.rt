//! What stands in a day, as rows: of accounts, of rules and of users. Each number of a row is an equation with its definition
//! over the records; each row is made by calls of a gate, and by one pass over the live orders or over the records for all
//! rows together.
#![tactic(auto)]

pub mod accounts;
pub mod commands;
pub mod day;
pub mod executed;
pub mod owners;
pub mod rules;
