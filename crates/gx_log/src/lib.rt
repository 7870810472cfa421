//! What a server tells on standard error. Who tells a line puts it where it waits to be written, and waits for nobody: a
//! standard error that nobody reads holds up the one thread that writes there. Where too much waits, a line is left out, and
//! counted.
//!
//! - `queue`: the text that waits, and how many lines were left out;
//! - `event`: the lines of events;
//! - `log`: what the threads of a server share of it;
//! - `pieces`: long texts, told in pieces of whole lines;
//! - `teller`: the thread that writes.
#![tactic(auto)]

mod event;
mod log;
mod pieces;
mod queue;
mod teller;

pub use event::event_line;
pub use log::Log;
pub use pieces::piece_size;
pub use queue::{Batch, LOG_ROOM, Queue};
pub use teller::{write_batch, write_on};
