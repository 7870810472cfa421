//! The runs of the program `gate`, over any gate `G`: when a run starts and ends, a run over standard input, the files that a
//! day is kept in, and a server that stands by.
//!
//! - `starts`: what the clocks read then, and in which version records are written;
//! - `ends`: when a server ends by itself;
//! - `auditing`: the file of a run's audit;
//! - `keeping`: the journal of a server's day, as a file;
//! - `standby`: a server that follows another one's journal, and takes over once that has ended;
//! - `running`: standard input as a connection's packets, or as the lines of a script.
#![tactic(auto)]

mod auditing;
mod ends;
mod keeping;
mod running;
mod standby;
mod starts;

pub use auditing::{AuditFile, close_audited, fail_audit, leave_audit, open_audit};
pub use ends::{await_ends, connections_of, look_ahead};
pub use keeping::{
    Day, JournalDevice, look_back, open_file, open_journal, take_up, tell_cut, tell_room,
};
pub use running::{Input, names_of, run_files};
pub use standby::{TakenOver, take_over};
pub use starts::{Start, audit_version};
