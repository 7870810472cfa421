//! The day that a file holds.

ghost use Rattle.std.specs.Prelude.{◌≡◌, ◌≢◌, ◌<◌, ◌^◌, [], length, IfErr, IfOk, IsTrue};
ghost use Rattle.gx_audit.specs.declared.fault.AuditFault.TheVariants as faults;
ghost use Rattle.gx_history.specs.Verdicts.{IsLegal};
ghost use Rattle.gx_audit.specs.{Replaying.{journal_size, IsReplayFault}, Resuming.{IsNewFile, Stands}};

use crate::fault::AuditFault;
use crate::replaying::replay;
use gx_access_gate::AccessGate;
use gx_audit_bytes::{AuditVersion, RECORD_SIZE, write_header_in};
use gx_policy::Policy;
use std::alloc::Global;

/// A day as a file holds it. Its gate is closed, and never dropped.
pub struct Resumed<G> {
    /// The gate of the records in the file.
    pub gate: G,
    /// How many bytes of the file stand: the journal of these records, or nothing, where no header is there. What is
    /// behind them is to be cut off.
    pub kept: u64,
}

/// Whether the bytes are a front of the policy's header in their version, but not all of it.
pub fn is_new(policy: &Policy, file: &[u8]) -> bool
    ensures { IsTrue result → IsNewFile policy.now file.now }
{
    file.len() < RECORD_SIZE && write_header_in(AuditVersion::of(file), policy).starts_with(file)
}

/// How many bytes the journal of so many records has.
fn size_of(count: u64) -> u64
    requires { journal_size count < 2 ^ 64 }
    ensures { result ≡ journal_size count }
{
    RECORD_SIZE as u64 + RECORD_SIZE as u64 * count
}

/// A day of which a file holds nothing yet.
fn begun<G: AccessGate>(alloc: Global, policy: &Policy) -> Result<Resumed<G>, AuditFault>
    ensures policy { IfOk result (λ r. (G.state r.gate).policy ≡ policy.now) }
    ensures records { IfOk result (λ r. (G.state r.gate).records ≡ []) }
    ensures kept { IfOk result (λ r. r.kept ≡ 0) }
    ensures legal { IfOk result (λ r. IsLegal policy.now (G.state r.gate).records) }
    ensures fault { IfErr result (λ e. e ≡ faults.OutOfMemory) }
{
    match G::open(alloc, policy) {
        Ok(gate) => {
            gate.is_legal();
            Ok(Resumed { gate, kept: 0 })
        }
        Err(_) => Err(AuditFault::OutOfMemory),
    }
}

/// The day that a file holds, which goes on with its last whole record.
///
/// A file that is empty, or was cut in its header, holds a new day.
///
/// # Errors
///
/// As of [`replay`]: what the file holds is no journal of a day under the policy. `OutOfMemory` where memory was refused.
pub fn resume<G: AccessGate>(
    alloc: Global,
    policy: &Policy,
    file: &[u8],
) -> Result<Resumed<G>, AuditFault>
    ensures policy { IfOk result (λ r. (G.state r.gate).policy ≡ policy.now) }
    ensures legal { IfOk result (λ r. IsLegal policy.now (G.state r.gate).records) }
    ensures stands { IfOk result
        (λ r. Stands policy.now file.now (G.state r.gate).records r.kept) }
    ensures fault { IfErr result (λ e. e ≢ faults.OutOfMemory
        → IsReplayFault policy.now file.now e) }
{
    if is_new(policy, file) {
        return begun(alloc, policy);
    }
    match replay::<G>(alloc, policy, file) {
        Ok(gate) => {
            let kept = size_of(gate.length());
            Ok(Resumed { gate, kept })
        }
        Err(fault) => Err(fault),
    }
}
