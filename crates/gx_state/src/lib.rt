//! What the program tells of a day as it stands: lines for a person, and JSON for a program. The rows are those of
//! `gx_overview`.
#![tactic(auto)]

mod json;
mod numbers;
mod orders;
mod words;

pub use json::state_json;
pub use words::state_text;
