//! What is told of an audit: a text with its status, or its fault.

use gx_audit::{AuditAnswer, AuditFault, told_of_fault};
use gx_program::{Failure, Resource, print};
use std::process::ExitCode;

/// Writes the text on standard output, and answers this status.
pub(crate) fn write<'a>(
    rt: &HostRuntime,
    text: &[u8],
    status: u8,
) -> Result<ExitCode, Failure<'a>> {
    print(rt, text)?;
    Ok(ExitCode::from(status))
}

/// What is told of an audit's fault, as its check tells it.
pub(crate) fn words_of<'a>(
    rt: &HostRuntime,
    fault: AuditFault,
) -> Result<AuditAnswer, Failure<'a>> {
    match told_of_fault(rt.alloc(), fault) {
        Ok(told) => Ok(told),
        Err(fault) => Err(Failure::of_writing(fault, Resource::Output, None)),
    }
}

/// Tells what is wrong with an audit, as its check does.
pub(crate) fn tell_fault<'a>(rt: &HostRuntime, fault: AuditFault) -> Result<ExitCode, Failure<'a>> {
    let told = words_of(rt, fault)?;
    write(rt, told.line.as_slice(), told.status())
}
