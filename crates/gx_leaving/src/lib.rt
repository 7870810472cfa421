//! Logouts of all who are logged in, where no connection is left of those that made a gate's records.
#![tactic(auto)]

mod leaving;

pub use leaving::{log_out_all, log_out_at_last};
