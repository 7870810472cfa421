//! The parts of a case, which are run and reported: runs over devices and audits at the case's gate, and calls at a door that
//! threads share. All of it is generic over the gate or the door.
#![tactic(auto)]

mod audits;
mod calls;
mod runs;

pub use audits::put_audit;
pub use calls::report_calls;
pub use runs::report_parts;
