//! The report: all its tables, and what its charts show.

use crate::accounts::{accounts_table, positions_table};
use crate::commands::commands_table;
use crate::day::day_table;
use crate::denials::{counts_of, denials_table, spans_table};
use crate::limits::{gross_table, net_table};
use crate::looking::Desk;
use crate::samples::Samples;
use crate::spans::Spans;
use gx_activity::spans::SpanRow;
use gx_digest::policy_digest;
use gx_peaks::Peaks;
use gx_policy::Policy;
use gx_records::{ShowsRecords, ShowsState};
use gx_tables::Table;
use gx_units::{OutOfMemory, SessionName};
use sha2::{Digest, Sha256};
use std::alloc::Global;

/// What stands for the files of a report in a few bytes.
#[derive(Clone, Copy, PartialEq, Eq)]
pub struct Digests {
    /// The SHA-256 of the audit's bytes.
    pub audit: [u8; 32],
    /// The SHA-256 of a text in which all stands that the policy says, but for passwords.
    pub policy: [u8; 32],
}

impl Digests {
    /// Of an audit and its policy.
    pub fn of(audit: &[u8], policy: &Policy) -> Digests {
        let mut hasher = Sha256::new();
        hasher.update(audit);
        Digests {
            audit: hasher.finalize(),
            policy: policy_digest(policy),
        }
    }
}

/// A day's report.
#[derive(Drop)]
pub struct DayReport {
    /// The name of the day's session.
    pub session: SessionName,
    /// The digests of the policy and of the audit.
    pub digests: Digests,
    /// The spans of its charts.
    pub spans: Spans,
    /// How many orders, fills and denials each span has.
    pub counts: Vec<SpanRow>,
    /// How much of gross limits was used at the end of each span.
    pub samples: Samples,
    /// In the order in which they are written.
    pub tables: Vec<Table>,
}

/// The tables of what accounts did.
fn push_accounts<G: ShowsRecords + ShowsState>(
    tables: &mut Vec<Table>,
    alloc: Global,
    gate: &G,
) -> Result<(), OutOfMemory> {
    tables.push(day_table(alloc, gate)?)?;
    tables.push(accounts_table(alloc, gate)?)?;
    Ok(())
}

/// The tables of the most that was used of limits, and of what was executed.
fn push_limits<G: ShowsRecords + ShowsState>(
    tables: &mut Vec<Table>,
    alloc: Global,
    gate: &G,
    peaks: &Peaks,
) -> Result<(), OutOfMemory> {
    tables.push(gross_table(alloc, gate.policy(), peaks)?)?;
    tables.push(net_table(alloc, gate.policy(), peaks)?)?;
    tables.push(positions_table(alloc, gate)?)?;
    Ok(())
}

/// The tables of what officers asked for and of what rules denied, and of the day's spans.
fn push_requests<G: ShowsRecords>(
    tables: &mut Vec<Table>,
    alloc: Global,
    gate: &G,
    desk: &Desk,
    spans: Spans,
    counts: &[SpanRow],
) -> Result<(), OutOfMemory> {
    let commands = desk.first.list.as_slice();
    let endings = desk.second.list.as_slice();
    tables.push(commands_table(alloc, gate.policy(), commands, endings)?)?;
    tables.push(denials_table(alloc, gate)?)?;
    tables.push(spans_table(alloc, spans, counts)?)?;
    Ok(())
}

fn tables_of<G: ShowsRecords + ShowsState>(
    alloc: Global,
    gate: &G,
    desk: &Desk,
    peaks: &Peaks,
    spans: Spans,
    counts: &[SpanRow],
) -> Result<Vec<Table>, OutOfMemory> {
    let mut tables = Vec::new(alloc);
    push_accounts(&mut tables, alloc, gate)?;
    push_limits(&mut tables, alloc, gate, peaks)?;
    push_requests(&mut tables, alloc, gate, desk, spans, counts)?;
    Ok(tables)
}

/// The report of the gate's day: of what was seen while its records were made, and of what is counted here.
///
/// # Errors
///
/// `OutOfMemory` where memory was refused.
pub fn report_of<G: ShowsRecords + ShowsState>(
    alloc: Global,
    gate: &G,
    desk: &Desk,
    peaks: &Peaks,
    samples: Samples,
    digests: Digests,
    spans: Spans,
) -> Result<DayReport, OutOfMemory> {
    let counts = counts_of(alloc, gate, spans)?;
    let tables = tables_of(alloc, gate, desk, peaks, spans, counts.as_slice())?;
    Ok(DayReport {
        session: gate.policy().session(),
        digests,
        spans,
        counts,
        samples,
        tables,
    })
}
