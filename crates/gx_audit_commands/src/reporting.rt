//! `gate report`: the day of an audit.

use crate::telling::{tell_fault, write};
use gx_command_line::{AuditFiles, PageForm};
use gx_policy::Policy;
use gx_program::{Content, Failure, bytes_of, policy_of};
use gx_records::{ShowsRecords, ShowsState};
use gx_report::{ReportForm, day_report};
use std::process::ExitCode;
use std::thread::Threads;

/// The form that is asked for.
fn form_of(form: PageForm) -> ReportForm {
    match form {
        PageForm::Text => ReportForm::Text,
        PageForm::Csv => ReportForm::Csv,
        PageForm::Json => ReportForm::Json,
        PageForm::Html => ReportForm::Html,
    }
}

/// Reports an audit's day under a policy.
fn report_under<'a, G: ShowsRecords + ShowsState + Send, R: Threads + Sync>(
    rt: &R,
    host: &HostRuntime,
    policy: &Policy,
    path: &'a str,
    form: PageForm,
) -> Result<ExitCode, Failure<'a>> {
    let audit = bytes_of(host, path, Content::Records)?;
    match day_report::<G, R>(rt, host.alloc(), policy, audit.as_slice(), form_of(form)) {
        Ok(text) => write(host, text.as_slice(), 0),
        Err(fault) => tell_fault(host, fault),
    }
}

/// Reports an audit's day: the status that says whether the audit is legal.
pub fn report<'a, G: ShowsRecords + ShowsState + Send, R: Threads + Sync>(
    rt: &R,
    host: &HostRuntime,
    files: AuditFiles<'a>,
    form: PageForm,
) -> Result<ExitCode, Failure<'a>> {
    let policy = policy_of(host, files.policy)?;
    report_under::<G, R>(rt, host, &policy, files.audit, form)
}
