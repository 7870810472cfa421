//! The records of an audit by their numbers.

use crate::checking::record_at;
use gx_audit_bytes::{AuditVersion, RECORD_SIZE, read_record_in};
use gx_units::Moment;

/// Where the first record begins: behind the header, where there is one.
fn first_place(audit: &[u8]) -> usize {
    if AuditVersion::of(audit).has_header() {
        RECORD_SIZE
    } else {
        0
    }
}

/// How many whole records an audit has.
pub fn count_of(audit: &[u8]) -> u64 {
    let first = first_place(audit);
    (audit.len().saturating_sub(first) / RECORD_SIZE) as u64
}

/// The bytes of the record of this number, the first being 1; `None` behind the last whole one.
pub(crate) fn bytes_at(audit: &[u8], number: u64) -> Option<[u8; RECORD_SIZE]> {
    let first = first_place(audit);
    if audit.len() < first {
        return None;
    }
    let count = (audit.len() - first) / RECORD_SIZE;
    if number == 0 || number > count as u64 {
        return None;
    }
    let index = (number - 1) as usize;
    Some(record_at(audit, first + index * RECORD_SIZE))
}

/// The moment of the record of this number; `None` where there is none, or its bytes are no record's.
pub fn moment_at(audit: &[u8], number: u64) -> Option<Moment> {
    let bytes = bytes_at(audit, number)?;
    let record = read_record_in(AuditVersion::of(audit), &bytes)?;
    Some(record.content().moment)
}

/// Whether the record of this number shows a later moment than this.
fn is_later(audit: &[u8], number: u64, moment: Moment) -> bool {
    match moment_at(audit, number) {
        Some(shown) => shown > moment,
        None => false,
    }
}

/// How many of an audit's first records show no later moment than this, in nanoseconds past midnight, where moments never
/// fall from record to record: so it is in a legal day. It looks at few records.
pub fn count_until(audit: &[u8], moment: Moment) -> u64 {
    let mut passed = 0;
    let mut end = count_of(audit);
    while passed < end {
        let middle = passed + (end - passed) / 2;
        if is_later(audit, middle + 1, moment) {
            end = middle;
        } else {
            passed = middle + 1;
        }
    }
    passed
}
