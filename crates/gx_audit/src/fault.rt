//! Why an audit is no legal day's.

use thiserror::Error;

/// Why an audit is no legal day's.
#[derive(Clone, Copy, Debug, PartialEq, Eq, Error)]
pub enum AuditFault {
    /// Behind the last whole record there are bytes, or a header is cut short.
    #[error("truncated")]
    Truncated,
    /// The bytes of this record are no record's, or its number is not this one.
    #[error("bad record {0}")]
    BadRecord(u64),
    /// The moment or the verdict of this record is not what its step leaves after those before, or the day has no room
    /// for it.
    #[error("illegal verdict {0}")]
    IllegalVerdict(u64),
    /// A growth was refused.
    #[error("out of memory")]
    OutOfMemory,
    /// The header is not the policy's.
    #[error("other policy")]
    OtherPolicy,
}
