//! The audit: a day's records as bytes, and the check that they are those of a legal day. A day goes on from its journal
//! by the same check.
//!
//! What the program does with audits: it writes that of a gate, tells whether one is that of a legal day, and shows its
//! records to a person.
#![tactic(auto)]

mod beginning;
mod checking;
mod day;
mod endings;
mod explaining;
mod fault;
mod keeping;
mod places;
mod replaying;
mod resuming;
mod telling;

pub use beginning::{replay_first, replay_watched};
pub use checking::{
    check_audit, check_record, check_watched, header_end, is_of_other_policy, record_at,
};
pub use day::{audit_of, header_of};
pub use endings::{endings_of, order_ends_of};
pub use explaining::more_of_audit;
pub use fault::AuditFault;
pub use keeping::write_audit;
pub use places::{count_of, count_until, moment_at};
pub use replaying::replay;
pub use resuming::{Resumed, is_new, resume};
pub use telling::{AuditAnswer, told_of_audit, told_of_fault};
