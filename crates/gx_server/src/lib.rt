//! What the program opens a gate on, and how each fault is told.
#![tactic(auto)]

mod error_recorder;
mod opening;
mod policies;
mod program_fault;

pub use error_recorder::ErrorRecorder;
pub use opening::{desk_policy, migrated_policy, open_gate, policy_for, told_of_policy};
pub use policies::{policy_line, sample_policy};
pub use program_fault::{Device, FaultLine, ProgramFault};
