//! The bytes of an audit: how its header and its records are written in each version, and which record bytes show.
#![tactic(auto)]

mod bodies;
mod day;
mod draft;
mod header;
mod reading;
mod records;
mod version;
mod writing;
mod written;
mod wrong;

pub use day::AuditDay;
pub use draft::{RECORD_SIZE, same_bytes, whole};
pub use header::{write_header, write_header_3, write_header_in};
pub use reading::{read_record, read_record_2, read_record_in, shows_verdict};
pub use records::{audit_bytes, put_record_bytes};
pub use version::AuditVersion;
pub use writing::{write_record, write_record_2, write_record_in};
pub use wrong::{message_shown, wrong_field};
