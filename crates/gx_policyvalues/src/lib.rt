//! The values of a policy file: what each key has to be, and the fault where it is not.
#![tactic(auto)]

mod fault;
pub mod field;
mod parsing;
mod tables;

pub use fault::{Allowed, Cause, EntryPlace, FaultKind, FaultPlace, Letters, PolicyFault};
pub use parsing::tree;
pub use tables::tables_at;
