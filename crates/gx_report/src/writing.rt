//! The report in each form.

use crate::page::append_page;
use crate::parts::append_digest;
use crate::report::{DayReport, Digests};
use gx_tables::{append_columns, append_csv, append_json};
use gx_text::append;
use gx_units::OutOfMemory;
use std::alloc::Global;

/// How a report is written.
#[derive(Clone, Copy, PartialEq, Eq)]
pub enum ReportForm {
    /// Tables in columns.
    Text,
    /// A line a row, behind the name of its table.
    Csv,
    /// One object, with a list for each table.
    Json,
    /// A page with tables and charts.
    Html,
}

fn append_text(text: &mut Vec<u8>, alloc: Global, report: &DayReport) -> Result<(), OutOfMemory> {
    append_digest(
        text,
        alloc,
        b"audit   sha256 ",
        &report.digests.audit,
        b"\n",
    )?;
    append_digest(
        text,
        alloc,
        b"policy  sha256 ",
        &report.digests.policy,
        b"\n",
    )?;
    for table in report.tables.as_slice() {
        append(text, b"\n")?;
        append_columns(text, alloc, table)?;
    }
    Ok(())
}

fn append_csv_tables(
    text: &mut Vec<u8>,
    alloc: Global,
    report: &DayReport,
) -> Result<(), OutOfMemory> {
    for table in report.tables.as_slice() {
        append_csv(text, alloc, table)?;
    }
    Ok(())
}

fn append_json_tables(text: &mut Vec<u8>, report: &DayReport) -> Result<(), OutOfMemory> {
    for table in report.tables.as_slice() {
        append(text, b",")?;
        append_json(text, table)?;
    }
    Ok(())
}

fn append_object(
    text: &mut Vec<u8>,
    alloc: Global,
    digests: &Digests,
    report: &DayReport,
) -> Result<(), OutOfMemory> {
    append_digest(text, alloc, b"{\"audit_sha256\":\"", &digests.audit, b"\"")?;
    append_digest(
        text,
        alloc,
        b",\"policy_sha256\":\"",
        &digests.policy,
        b"\"",
    )?;
    append_json_tables(text, report)?;
    append(text, b"}\n")
}

fn append_report(
    text: &mut Vec<u8>,
    alloc: Global,
    report: &DayReport,
    form: ReportForm,
) -> Result<(), OutOfMemory> {
    match form {
        ReportForm::Text => append_text(text, alloc, report),
        ReportForm::Csv => append_csv_tables(text, alloc, report),
        ReportForm::Json => append_object(text, alloc, &report.digests, report),
        ReportForm::Html => append_page(text, alloc, report),
    }
}

/// The report in this form.
///
/// # Errors
///
/// `OutOfMemory` where memory was refused.
pub fn written(
    alloc: Global,
    report: &DayReport,
    form: ReportForm,
) -> Result<Vec<u8>, OutOfMemory> {
    let mut text = Vec::new(alloc);
    append_report(&mut text, alloc, report, form)?;
    Ok(text)
}
