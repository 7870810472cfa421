//! The text of a policy file: printed from the file's table, and compared by parts.
#![tactic(auto)]

mod comparing;
mod printing;
mod shallow;

pub use comparing::{find, is_same_at};
pub use printing::{line_at, printed};
