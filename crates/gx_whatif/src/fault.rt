//! Why it can't be said what changes.

use gx_audit::AuditFault;
use thiserror::Error;

/// Why it can't be said what another policy changes of an audit's day.
#[derive(Clone, Copy, Debug, PartialEq, Eq, Error)]
pub enum WhatIfFault {
    /// The audit is not that of a legal day under its own policy, or memory was refused.
    #[error("{0}")]
    Audit(AuditFault),
    /// The day under the other policy has as many records as a day may have, and one more step.
    #[error("day full")]
    DayFull,
}
