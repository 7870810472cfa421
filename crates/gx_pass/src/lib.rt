//! Passes over a history that only grows.
//!
//! A keeper knows the whole history, and stands behind a lock of its owner's. A pass knows the beginning of the history
//! that its holder has met and, of its own line, all records; it may be told at any time how long the history is, and
//! waits for nobody. The history itself stands in contracts alone: what threads share is one word, its length.
#![tactic(auto)]

mod blank;
mod keeper;
mod line;
mod name;
mod pass;
mod view;

pub use blank::Blank;
pub use keeper::Keeper;
pub use line::{LAST_LINE, line_in};
pub use name::GateName;
pub use pass::{Entered, Pass, PassFault};
pub use view::{KeeperView, LineView};
