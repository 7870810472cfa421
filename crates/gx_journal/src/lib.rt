//! The journal of a day: each record is written to a device before anything that comes of it is told, so that a day
//! outlives its program.
//!
//! A journal is an audit of version 2 or 3: the header of the policy, and then the records, 128 bytes each. A [`Journaled`]
//! door hands on what it is asked to another door, and keeps the records of that when a writer is about to tell
//! something. Records that are there together are written together, by whoever comes first. All memory that this takes is taken
//! before the journal is begun.
#![tactic(auto)]

mod journal;
mod journaled;
mod name;
mod progress;
mod room;
mod writer;

pub use journal::{Journal, KeptRecords};
pub use journaled::Journaled;
pub use name::JournalName;
pub use room::JournalRoom;
pub use writer::JournalWriter;
