//! The versions of the audit.

ghost use Rattle.std.specs.Prelude.{◌≡◌};
ghost use Rattle.gx_audit_bytes.specs.Versions.{has_header, version_of, DayFits};

use crate::day::{AuditDay, day_in};
use crate::header::{DATED_MARK, MARK};

/// How an audit is written.
#[derive(Clone, Copy, PartialEq, Eq)]
pub enum AuditVersion {
    /// Records alone, with the mark `GXA1`.
    One,
    /// The policy's header, and then records with the mark `GXA2`.
    Two,
    /// The policy's header with its digest and this day, and then records with the mark `GXA3`.
    Three(AuditDay),
}

impl AuditVersion {
    /// The version of an audit: 2 where it begins with `GXH2`, 3 where it begins with `GXH3`, else 1. The day is that of
    /// the header; where the header is cut short, zero bytes stand for those that are missing.
    pub fn of(audit: &[u8]) -> AuditVersion
        ensures version { result ≡ version_of audit.now }
        ensures fits { DayFits result }
    {
        if audit.starts_with(&MARK) {
            AuditVersion::Two
        } else if audit.starts_with(&DATED_MARK) {
            AuditVersion::Three(day_in(audit))
        } else {
            AuditVersion::One
        }
    }

    /// Whether a header stands in front of the records.
    pub fn has_header(self) -> bool
        ensures { result ≡ has_header self }
    {
        match self {
            AuditVersion::One => false,
            AuditVersion::Two | AuditVersion::Three(_) => true,
        }
    }
}
