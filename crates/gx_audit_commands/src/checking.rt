//! `gate check`: whether an audit is that of a legal day.

use crate::telling::write;
use gx_access_gate::AccessGate;
use gx_audit::{AuditAnswer, more_of_audit, told_of_audit};
use gx_command_line::AuditFiles;
use gx_policy::Policy;
use gx_program::{Content, Failure, Resource, bytes_of, policy_of};
use std::io::Write;
use std::process::ExitCode;

/// Puts a line behind an answer. The first line on standard error is that of a fault of the program: it stays empty.
fn tell_behind(rt: &HostRuntime, line: &[u8]) {
    let _ = eprintln!(rt; "");
    let _ = rt.stderr().write_all(line);
}

/// Puts behind an answer what more there is to tell of it; nothing where there is no memory for it.
fn tell_more_of<G: AccessGate>(
    rt: &HostRuntime,
    policy: &Policy,
    audit: &[u8],
    told: &AuditAnswer,
) {
    if audit.is_empty() {
        tell_behind(rt, b"the file is empty: it has no header and no record\n");
    }
    if let Ok(Some(line)) = more_of_audit::<G>(rt.alloc(), policy, audit, told.answer) {
        tell_behind(rt, line.as_slice());
    }
}

/// Tells what an audit is: the status that says so.
fn tell_audit<'a, G: AccessGate>(
    rt: &HostRuntime,
    policy: &Policy,
    audit: &[u8],
) -> Result<ExitCode, Failure<'a>> {
    let told = match told_of_audit::<G>(rt.alloc(), policy, audit) {
        Ok(told) => told,
        Err(fault) => return Err(Failure::of_writing(fault, Resource::Output, None)),
    };
    let status = write(rt, told.line.as_slice(), told.status())?;
    tell_more_of::<G>(rt, policy, audit, &told);
    Ok(status)
}

/// Checks an audit under a policy: the status that says what it is.
fn check_under<'a, G: AccessGate>(
    rt: &HostRuntime,
    policy: &Policy,
    path: &'a str,
) -> Result<ExitCode, Failure<'a>> {
    let audit = bytes_of(rt, path, Content::Records)?;
    tell_audit::<G>(rt, policy, audit.as_slice())
}

/// Checks an audit: the status that says what it is.
pub fn check<'a, G: AccessGate>(
    rt: &HostRuntime,
    files: AuditFiles<'a>,
) -> Result<ExitCode, Failure<'a>> {
    let policy = policy_of(rt, files.policy)?;
    check_under::<G>(rt, &policy, files.audit)
}
