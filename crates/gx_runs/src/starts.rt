//! The start of a run: what the clocks read then, and in which version its records are written.

use gx_audit_bytes::{AuditDay, AuditVersion};
use gx_clock::{ClockReading, DayClock, UtcOffset};
use gx_command_line::VersionAsked;
use gx_units::Moment;
use std::time::Clock;

/// The start of a run.
#[derive(Clone, Copy)]
pub struct Start {
    /// What the clocks read.
    reading: ClockReading,
    /// In which version the audit is written, and a journal that is begun; in version 3 with the date of the start.
    pub version: AuditVersion,
}

impl Start {
    /// A run that starts now, whose midnight is so far from that of UTC.
    pub fn of_run<R: Clock>(rt: &R, asked: VersionAsked, offset: UtcOffset) -> Start {
        let reading = ClockReading::take(rt);
        let version = match asked {
            VersionAsked::Two => AuditVersion::Two,
            VersionAsked::Three => AuditVersion::Three(AuditDay {
                date: reading.date(offset),
                offset,
            }),
        };
        Start { reading, version }
    }

    /// The clock of a server's day, which has begun at the start, no earlier than at the moment `last`.
    pub fn clock(&self, offset: UtcOffset, last: Moment) -> DayClock {
        DayClock::at(offset, self.reading.since, self.reading.begun, last)
    }
}

/// The version of an audit, where this one is asked for, of a day whose journal is of another: both have one day.
pub fn audit_version(asked: AuditVersion, journal: AuditVersion) -> AuditVersion {
    match (asked, journal) {
        (AuditVersion::Three(_), AuditVersion::Three(day)) => AuditVersion::Three(day),
        _ => asked,
    }
}
