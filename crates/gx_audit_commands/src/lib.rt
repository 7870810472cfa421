//! The commands of the program `gate` that read an audit or a journal, over any gate: each makes the steps of its records again
//! on a gate of its own.
//!
//! - `checking`: whether an audit is that of a legal day;
//! - `showing`: which of its records are shown, and how;
//! - `standing`, `reporting`: what stands in its day, and what became of it;
//! - `comparing`: its day under another policy;
//! - `following`: a journal that grows;
//! - `telling`: a text with its status, or an audit's fault.
#![tactic(auto)]

mod checking;
mod comparing;
mod following;
mod reporting;
mod showing;
mod standing;
mod telling;

pub use checking::check;
pub use comparing::whatif;
pub use following::follow;
pub use reporting::report;
pub use showing::show;
pub use standing::state;
