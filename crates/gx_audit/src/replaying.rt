//! A day that goes on from its journal.

ghost use Rattle.std.specs.Prelude.{◌≡◌, ◌≤◌, IfOk, IfErr, length};
ghost use Rattle.gx_history.specs.Verdicts.{IsLegal};
ghost use Rattle.gx_audit.specs.Replaying.{journal_size, HoldsRecords, IsReplayFault};

use crate::checking::{follow_records, header_end};
use crate::fault::AuditFault;
use gx_access_gate::AccessGate;
use gx_audit_bytes::AuditVersion;
use gx_policy::Policy;
use std::alloc::Global;

/// The gate of the records that a journal holds: an audit of version 2 or 3, which may be cut in its last record. Each step
/// is made again, as [`check_audit`](crate::check_audit) does.
///
/// # Errors
///
/// `Truncated` only where the bytes are too few for a header, and `OtherPolicy` where they do not begin with the policy's, in
/// version 3 that of the day which they name.
/// Any other fault names its record.
#[tactic(auto, using(crate::proofs::Journal_call::holds_records, crate::proofs::Journal_call::is_within))]
pub fn replay<G: AccessGate>(
    alloc: Global,
    policy: &Policy,
    journal: &[u8],
) -> Result<G, AuditFault>
    ensures policy { IfOk result (λ gate. (G.state gate).policy ≡ policy.now) }
    ensures records { IfOk result
        (λ gate. HoldsRecords policy.now journal.now (G.state gate).records) }
    ensures legal { IfOk result (λ gate. IsLegal policy.now (G.state gate).records) }
    ensures size { IfOk result (λ gate.
        journal_size (length (G.state gate).records) ≤ length journal.now) }
    ensures fault { IfErr result (λ e. IsReplayFault policy.now journal.now e) }
{
    let version = AuditVersion::of(journal);
    let start = header_end(policy, version, journal)?;
    let Ok(mut gate) = G::open(alloc, policy) else {
        return Err(AuditFault::OutOfMemory);
    };
    match follow_records(&mut gate, version, journal, start) {
        Ok(_) => Ok(gate),
        Err(fault) => {
            gate.close();
            Err(fault)
        }
    }
}
