//! Scripts: what each line does to a gate and prints, and the run of a script over any reader and writer.
#![tactic(auto)]

mod laws;
mod running;
mod script;
mod script_fault;

pub use laws::{faults_leave_a_front, lines_make_the_text, nothing_follows_a_bad_line};
pub use script::run_script;
pub use script_fault::{Explained, ScriptFault};
