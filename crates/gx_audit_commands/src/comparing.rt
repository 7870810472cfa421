//! `gate whatif`: an audit's day under another policy.

use crate::telling::{tell_fault, write};
use gx_audit::AuditFault;
use gx_command_line::{AuditFiles, OtherPolicy};
use gx_connection::PipeFault;
use gx_policy::Policy;
use gx_program::{Content, Failure, bytes_of, policy_of};
use gx_records::{ShowsRecords, ShowsState};
use gx_server::ProgramFault;
use gx_units::OutOfMemory;
use gx_whatif::{WhatIf, WhatIfFault, append_whatif_json, append_whatif_text, what_if};
use std::alloc::Global;
use std::process::ExitCode;

/// What is told of what changes.
fn output_text(alloc: Global, found: &WhatIf, is_json: bool) -> Result<Vec<u8>, OutOfMemory> {
    let mut text = Vec::new(alloc);
    let put = if is_json {
        append_whatif_json(&mut text, alloc, found)
    } else {
        append_whatif_text(&mut text, found)
    };
    put?;
    Ok(text)
}

/// What is told of what the other policy changes.
fn changes_told<G: ShowsRecords + ShowsState>(
    alloc: Global,
    policy: &Policy,
    audit: &[u8],
    other: &Policy,
    is_json: bool,
) -> Result<Vec<u8>, WhatIfFault> {
    let found = what_if::<G>(alloc, policy, audit, other)?;
    match output_text(alloc, &found, is_json) {
        Ok(text) => Ok(text),
        Err(_) => Err(WhatIfFault::Audit(AuditFault::OutOfMemory)),
    }
}

/// That the day under the other policy has no room for a step.
fn day_full<'a>() -> Failure<'a> {
    ProgramFault::from(PipeFault::DayFull).into()
}

/// Tells why nothing can be told.
fn tell_why_not<'a>(rt: &HostRuntime, fault: WhatIfFault) -> Result<ExitCode, Failure<'a>> {
    let WhatIfFault::Audit(fault) = fault else {
        return Err(day_full());
    };
    tell_fault(rt, fault)
}

/// Tells what the other policy changes, or what is wrong with the audit.
fn tell_changes<'a, G: ShowsRecords + ShowsState>(
    rt: &HostRuntime,
    policy: &Policy,
    audit: &[u8],
    other: &Policy,
    is_json: bool,
) -> Result<ExitCode, Failure<'a>> {
    match changes_told::<G>(rt.alloc(), policy, audit, other, is_json) {
        Ok(text) => write(rt, text.as_slice(), 0),
        Err(fault) => tell_why_not(rt, fault),
    }
}

/// Tells what the other policy that is asked for changes of an audit's day under a policy.
fn whatif_under<'a, G: ShowsRecords + ShowsState>(
    rt: &HostRuntime,
    policy: &Policy,
    path: &'a str,
    asked: OtherPolicy<'a>,
) -> Result<ExitCode, Failure<'a>> {
    let other = policy_of(rt, Some(asked.policy))?;
    let audit = bytes_of(rt, path, Content::Records)?;
    tell_changes::<G>(rt, policy, audit.as_slice(), &other, asked.is_json)
}

/// Tells which verdicts of an audit's day change under another policy: the status that says whether the audit is legal.
pub fn whatif<'a, G: ShowsRecords + ShowsState>(
    rt: &HostRuntime,
    files: AuditFiles<'a>,
    asked: OtherPolicy<'a>,
) -> Result<ExitCode, Failure<'a>> {
    let policy = policy_of(rt, files.policy)?;
    whatif_under::<G>(rt, &policy, files.audit, asked)
}
