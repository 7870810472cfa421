//! A day's records as bytes.

ghost use Rattle.std.specs.Prelude.{◌≡◌, IfOk, length};
ghost use Rattle.gx_audit.specs.Auditing.{IsLegalAudit};
ghost use Rattle.gx_audit_bytes.specs.{Audits.whole_audit, Headers.{front_of, header_in}, Versions.DayFits};

use gx_access_gate::AccessGate;
use gx_audit_bytes::{AuditVersion, RECORD_SIZE, audit_bytes, write_header_in};
use gx_units::OutOfMemory;
use std::alloc::Global;

/// The header of the gate's policy in this version. Takes no memory.
pub fn header_of<G: AccessGate>(version: AuditVersion, gate: &G) -> [u8; RECORD_SIZE]
    ensures header { result ≡ header_in version (G.state gate.now).policy }
    ensures fits { DayFits version }
{
    write_header_in(version, gate.policy())
}

/// What stands in front of the gate's records: the policy's header in a version that has one.
#[tactic(auto, using(crate::proofs::Header_call::no_front, crate::proofs::Header_call::front_is))]
fn front<G: AccessGate>(
    alloc: Global,
    version: AuditVersion,
    gate: &G,
) -> Result<Vec<u8>, OutOfMemory>
    ensures front { IfOk result
        (λ front. front.items ≡ front_of version (G.state gate.now).policy) }
    ensures fits { DayFits version }
{
    let header = header_of(version, gate);
    if !version.has_header() {
        return Ok(Vec::new(alloc));
    }
    Ok(Vec::from_slice(alloc, &header)?)
}

/// The audit of the gate's records in this version: that of a legal day under its policy.
/// For the cases: they put the whole audit of a day into memory.
#[tactic(auto, using(crate::proofs::Audit_whole::whole_is, crate::proofs::Audit_whole::is_audit))]
pub fn audit_of<G: AccessGate>(
    alloc: Global,
    version: AuditVersion,
    gate: &G,
) -> Result<Vec<u8>, OutOfMemory>
    ensures bytes { IfOk result (λ v.
        v.items ≡ whole_audit version (G.state gate.now).policy (G.state gate.now).records) }
    ensures legal { IfOk result (λ v.
        IsLegalAudit (G.state gate.now).policy v.items (length (G.state gate.now).records)) }
{
    gate.is_legal();
    let mut audit = front(alloc, version, gate)?;
    let records = gate.records(1, gate.length())?;
    let bytes = audit_bytes(alloc, version, records.as_slice())?;
    audit.extend_from_slice(bytes.as_slice())?;
    Ok(audit)
}
