//! The files of a run: read within a limit, told apart, and watched while they are written.
#![tactic(auto)]

mod identity;
mod reading;
mod watched;

pub use identity::{FileIdentity, SharedFile, shared_file};
pub use reading::{ReadFault, read_within};
pub use watched::{Measure, Measured, Watched};
