//! The terminal client of the gate, without its socket: what is sent for a line, which answer is whose, which lines are
//! shown, and the status of the run.
//!
//! Each command has a tag of its own, and each order a token of its own: 14 digits, of which 8 are the milliseconds of the
//! day at which the run began. So an answer is known by its tag, and a message on an order of the run by its token.
#![tactic(auto)]

mod asked;
mod kills;
mod operator;
mod serial;
mod telling;

pub use asked::ClientRequest;
pub use kills::{KillOutcome, KillRound};
pub use operator::Operator;
pub use telling::read_message;
