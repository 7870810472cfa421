//! The gate as it stood behind one of an audit's records.

ghost use Rattle.std.specs.Prelude.{◌≡◌, ◌++◌, ◌≤◌, [], drop, length, Err, IfErr, IfOk, OnOk};
ghost use Rattle.gx_history.specs.Verdicts.{IsLegal};
ghost use Rattle.gx_audit.specs.{Auditing.IsAnswer, Beginning.AreFirstOfAudit, Replaying.IsRecordsFault};
ghost use Rattle.gx_audit_bytes.specs.{Headers.front_of, Versions.version_of};

use crate::checking::{check_watched, record_at, records_start};
use crate::fault::AuditFault;
use gx_access_gate::AccessGate;
use gx_audit_bytes::{AuditVersion, RECORD_SIZE};
use gx_policy::Policy;
use gx_records::{NoWatch, Watches};
use std::alloc::Global;

/// Makes the steps of the first records from this place on, so many at most, on a new gate, while the watcher looks on.
fn follow_first<G: AccessGate, W: Watches<G>>(
    gate: &mut G,
    watcher: &mut W,
    version: AuditVersion,
    audit: &[u8],
    start: usize,
    most: u64,
) -> Result<(), AuditFault>
    requires new { (G.state gate.old).records ≡ [] }
    requires saw { W.saw watcher.old (G.state gate.old).policy [] }
    requires version { version_of audit.now ≡ version }
    requires within { start ≤ length audit.now }
    requires front { front_of version (G.state gate.old).policy ++ drop start audit.now
        ≡ audit.now }
    ensures policy { (G.state gate.new).policy ≡ (G.state gate.old).policy }
    ensures legal { OnOk result (IsLegal (G.state gate.old).policy (G.state gate.new).records) }
    ensures first { OnOk result
        (AreFirstOfAudit (G.state gate.old).policy most audit.now (G.state gate.new).records) }
    ensures saw { OnOk result
        (W.saw watcher.new (G.state gate.old).policy (G.state gate.new).records) }
    ensures fault { IfErr result (λ e. IsRecordsFault (G.state gate.old).policy audit.now e) }
{
    let mut at = start;
    while audit.len() - at >= RECORD_SIZE {
        // that its records are those of a legal day
        gate.is_legal();
        if gate.length() >= most {
            return Ok(());
        }
        match check_watched(gate, watcher, version, &record_at(audit, at)) {
            Ok(()) => at += RECORD_SIZE,
            Err(fault) => return Err(fault),
        }
    }
    gate.is_legal();
    Ok(())
}

/// The gate as it stood behind an audit's first records: so many, or all that are whole where it has fewer. The audit is in
/// any version, and may be cut in its last record, as the journal of a server that runs may be. Each step is made again, as
/// [`check_audit`](crate::check_audit) does; what stands behind these records is not looked at.
///
/// # Errors
///
/// As of [`check_audit`](crate::check_audit); `Truncated` only where the bytes are too few for a header.
pub fn replay_first<G: AccessGate>(
    alloc: Global,
    policy: &Policy,
    audit: &[u8],
    most: u64,
) -> Result<G, AuditFault>
    ensures policy { IfOk result (λ gate. (G.state gate).policy ≡ policy.now) }
    ensures legal { IfOk result (λ gate. IsLegal policy.now (G.state gate).records) }
    ensures first { IfOk result
        (λ gate. AreFirstOfAudit policy.now most audit.now (G.state gate).records) }
    // The fault is what the check of the whole audit answers.
    ensures fault { IfErr result (λ e. IsAnswer policy.now audit.now (Err e)) }
{
    replay_watched(alloc, policy, audit, most, &mut NoWatch)
}

/// The gate as [`replay_first`] gives it. The watcher looks on at each of its records.
///
/// # Errors
///
/// As of [`replay_first`], and `OutOfMemory` where the watcher was refused its memory.
#[tactic(auto, using(crate::proofs::Audit_walk::answer_of_records))]
pub fn replay_watched<G: AccessGate, W: Watches<G>>(
    alloc: Global,
    policy: &Policy,
    audit: &[u8],
    most: u64,
    watcher: &mut W,
) -> Result<G, AuditFault>
    requires saw { W.saw watcher.old policy.now [] }
    ensures policy { IfOk result (λ gate. (G.state gate).policy ≡ policy.now) }
    ensures legal { IfOk result (λ gate. IsLegal policy.now (G.state gate).records) }
    ensures first { IfOk result
        (λ gate. AreFirstOfAudit policy.now most audit.now (G.state gate).records) }
    ensures saw { IfOk result (λ gate. W.saw watcher.new policy.now (G.state gate).records) }
    // The fault is what the check of the whole audit answers.
    ensures fault { IfErr result (λ e. IsAnswer policy.now audit.now (Err e)) }
{
    let version = AuditVersion::of(audit);
    let start = records_start(policy, version, audit)?;
    let Ok(mut gate) = G::open(alloc, policy) else {
        return Err(AuditFault::OutOfMemory);
    };
    match follow_first(&mut gate, watcher, version, audit, start, most) {
        Ok(()) => Ok(gate),
        Err(fault) => {
            gate.close();
            Err(fault)
        }
    }
}
