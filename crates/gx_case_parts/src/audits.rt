//! The audit of a gate's records, which is written to a device, and its bytes.

use gx_audit::{audit_of, write_audit};
use gx_audit_bytes::{AuditVersion, RECORD_SIZE};
use gx_devices::{CallCounter, WriteFault};
use gx_records::ShowsRecords;
use gx_test_devices::{DeviceLimits, OutputText, ShortWriter, put_hex};
use std::alloc::Global;

/// The bytes of the gate's audit in this version; none where there is no memory for them.
fn audit_in<G: ShowsRecords>(
    alloc: Global,
    out: &mut OutputText,
    version: AuditVersion,
    gate: &G,
) -> Vec<u8> {
    match audit_of(alloc, version, gate) {
        Ok(audit) => audit,
        Err(_) => out.no_bytes(alloc),
    }
}

/// Writes bytes in hex, a line for a header or a record.
fn put_in_hex(alloc: Global, out: &mut OutputText, audit: &[u8]) {
    for bytes in audit.chunks(RECORD_SIZE) {
        put_hex(alloc, out, bytes);
    }
}

/// Writes the gate's audit to a device, and writes the bytes that it took, and how that ended.
pub(crate) fn report_audit<G: ShowsRecords>(
    alloc: Global,
    out: &mut OutputText,
    gate: &G,
    limits: DeviceLimits,
) {
    let mut writer = CallCounter::new(ShortWriter::new(alloc, limits));
    let ended = write_audit(AuditVersion::Two, gate, &mut writer);
    put_in_hex(alloc, out, writer.into_inner().taken.as_slice());
    out.put("audit: ");
    match ended {
        Ok(()) => out.put("done"),
        Err(failed) => out.put_shown(&WriteFault::from(failed)),
    }
    out.put("\n");
}

/// Writes the bytes of the gate's audit in version 1, in hex.
pub(crate) fn report_first_version<G: ShowsRecords>(alloc: Global, out: &mut OutputText, gate: &G) {
    let audit = audit_in(alloc, out, AuditVersion::One, gate);
    put_in_hex(alloc, out, audit.as_slice())
}

/// Writes the gate's audit on a line of its own, in hex.
pub fn put_audit<G: ShowsRecords>(alloc: Global, out: &mut OutputText, gate: &G) {
    let audit = audit_in(alloc, out, AuditVersion::Two, gate);
    out.put("audit: ");
    put_hex(alloc, out, audit.as_slice())
}
