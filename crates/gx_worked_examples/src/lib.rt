//! Runs worked by hand, computed on the definitions: what comes of each, and what users are told.
#![tactic(auto)]

pub mod rows;
