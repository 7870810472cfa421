//! A run of the terminal client over any stream: it logs in, asks what the lines ask for, one after the other, shows what
//! comes, and logs out.
#![tactic(auto)]

mod commands;
mod fault;
mod hearing;
mod limits;
mod named;
mod page;
mod run;
mod summary;
mod timer;

pub use commands::NO_ACCOUNTS;
pub use fault::Fault;
pub use page::Pause;
pub use run::{Run, Setup};
