//! The gate that a run opens, and what is told of a policy file.

ghost use Rattle.std.specs.Prelude.{◌≡◌, [], None, Ok, option_copied, IfOk, IfErr};
ghost use Rattle.gx_policyfile.specs.{Policies.{means, version_of}, Migrating.without_users};
ghost use Rattle.gx_server.specs.{Opening.{policy_for, line_for, IsFaultOf}, Telling.out_of_memory};

use crate::policies::{policy_line, sample_policy};
use crate::program_fault::ProgramFault;
use gx_access_gate::AccessGate;
use gx_policy::Policy;
use gx_policyfile::{migrate, policy_for_desk, read_policy, read_version};
use std::alloc::Global;

/// The policy that a file means.
fn policy_of(alloc: Global, file: &[u8]) -> Result<Policy, ProgramFault>
    ensures policy { IfOk result (λ policy. means file.now ≡ Ok policy) }
    ensures fault { IfErr result (IsFaultOf (means file.now)) }
{
    Ok(read_policy(alloc, file)?)
}

/// The policy to open on: that of the file, or else the sample policy.
///
/// # Errors
///
/// The fault of the file, or that memory was refused.
pub fn policy_for(alloc: Global, file: Option<&[u8]>) -> Result<Policy, ProgramFault>
    ensures policy { IfOk result (λ policy. policy_for (option_copied file.entry) ≡ Ok policy) }
    ensures fault { IfErr result (IsFaultOf (policy_for (option_copied file.entry))) }
{
    match file {
        Some(bytes) => policy_of(alloc, bytes),
        None => Ok(sample_policy(alloc)?),
    }
}

/// A gate at the beginning of a day: under the policy that the bytes of a file mean, or, where no file is given, under
/// the sample policy.
///
/// # Errors
///
/// The fault of the file, or that memory was refused.
pub fn open_gate<G: AccessGate>(alloc: Global, file: Option<&[u8]>) -> Result<G, ProgramFault>
    ensures policy { IfOk result (λ gate.
        policy_for (option_copied file.entry) ≡ Ok (G.state gate).policy) }
    ensures records { IfOk result (λ gate. (G.state gate).records ≡ []) }
    ensures fault { IfErr result (IsFaultOf (policy_for (option_copied file.entry))) }
    ensures sample { option_copied file.entry ≡ None
        → IfErr result (λ fault. fault ≡ out_of_memory) }
{
    let policy = policy_for(alloc, file)?;
    Ok(G::open(alloc, &policy)?)
}

/// The version of a file that means a policy.
fn version_of(alloc: Global, file: &[u8]) -> Result<u64, ProgramFault>
    ensures version { IfOk result (λ version. version_of file.now ≡ Ok version) }
    ensures fault { IfErr result (IsFaultOf (means file.now)) }
{
    Ok(read_version(alloc, file)?)
}

/// The line that says which version the file has, and how much the policy holds that its bytes mean.
///
/// # Errors
///
/// The fault of the file, or that memory was refused.
pub fn told_of_policy(alloc: Global, file: &[u8]) -> Result<Vec<u8>, ProgramFault>
    ensures line { IfOk result (λ text.
        line_for (version_of file.now) (means file.now) ≡ Ok text.items) }
    ensures fault { IfErr result (IsFaultOf (means file.now)) }
{
    let version = version_of(alloc, file)?;
    let policy = policy_of(alloc, file)?;
    Ok(policy_line(alloc, version, &policy)?)
}

/// The file in version 2, with the same meaning.
///
/// # Errors
///
/// The fault of the file, or that memory was refused.
pub fn migrated_policy(alloc: Global, file: &[u8]) -> Result<Vec<u8>, ProgramFault>
    ensures version { IfOk result (λ text. version_of text.items ≡ Ok 2) }
    ensures same { IfOk result (λ text. means text.items ≡ means file.now) }
    ensures fault { IfErr result (IsFaultOf (means file.now)) }
{
    Ok(migrate(alloc, file)?)
}

/// The file in version 2 without its users, and so without a password.
///
/// # Errors
///
/// The fault of the file, or that memory was refused.
pub fn desk_policy(alloc: Global, file: &[u8]) -> Result<Vec<u8>, ProgramFault>
    ensures policy { IfOk result (λ text. means text.items ≡ without_users (means file.now)) }
    ensures fault { IfErr result (IsFaultOf (means file.now)) }
{
    Ok(policy_for_desk(alloc, file)?)
}
