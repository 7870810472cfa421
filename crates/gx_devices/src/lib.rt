//! Readers and writers whose calls and failures are counted, so that whoever gives up says rightly why.
#![tactic(auto)]

mod call_counter;
mod fault;
mod write;

pub use call_counter::CallCounter;
pub use fault::WriteFault;
pub use write::{WriteFailed, write_flushing, write_whole};
