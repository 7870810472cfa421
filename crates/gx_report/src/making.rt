//! From an audit to its report.

ghost use Rattle.std.specs.Prelude.{◌≡◌, [], Err, IfErr, IfOk};
ghost use Rattle.gx_audit.specs.Auditing.{IsAnswer};
ghost use Rattle.gx_endings.specs.{Commands.command_rows, Endings.endings};
ghost use Rattle.gx_peaks.specs.Noting.{AreOver};
ghost use Rattle.gx_report.specs.Samples.{AreTaken};

use crate::looking::{ReportWatch, watch_for};
use crate::report::{Digests, report_of};
use crate::spans::Spans;
use crate::writing::{ReportForm, written};
use gx_audit::{AuditFault, count_of, count_until, moment_at, replay_watched};
use gx_endings::Both;
use gx_policy::Policy;
use gx_records::{ShowsRecords, ShowsState};
use gx_units::OutOfMemory;
use std::alloc::Global;
use std::thread::{Threads, join};

/// The spans of an audit's day.
fn spans_of(audit: &[u8]) -> Spans {
    let first = moment_at(audit, 1).unwrap_or(0);
    let last = moment_at(audit, count_of(audit)).unwrap_or(first);
    Spans::between(first, last)
}

/// After how many records each span ends.
fn counts_of(alloc: Global, audit: &[u8], spans: Spans) -> Result<Vec<u64>, OutOfMemory> {
    let mut counts = Vec::new(alloc);
    for place in 0..spans.count {
        counts.push(count_until(audit, spans.end(place)))?;
    }
    Ok(counts)
}

/// Whoever looks on while the records of the audit are made again.
fn watch_of(
    alloc: Global,
    policy: &Policy,
    audit: &[u8],
    spans: Spans,
) -> Result<ReportWatch, OutOfMemory>
    ensures commands { IfOk result (λ watch.
        watch.first.first.list.items ≡ command_rows policy.now []) }
    ensures endings { IfOk result (λ watch.
        watch.first.second.list.items ≡ endings policy.now []) }
    ensures samples { IfOk result (λ watch. AreTaken policy.now watch.second.first []) }
    ensures peaks { IfOk result (λ watch. AreOver policy.now [] watch.second.second) }
{
    let counts = counts_of(alloc, audit, spans)?;
    watch_for(alloc, policy, counts)
}

/// The report of the gate's day, all of which was seen. The samples behind its last record are taken here.
fn text_of<G: ShowsRecords + ShowsState>(
    alloc: Global,
    gate: &G,
    seen: ReportWatch,
    digests: Digests,
    spans: Spans,
    form: ReportForm,
) -> Result<Vec<u8>, OutOfMemory>
    requires taken { AreTaken (G.state gate.now).policy seen.second.first
        (G.state gate.now).records }
{
    let Both {
        first: desk,
        second: Both {
            first: mut samples,
            second: peaks,
        },
    } = seen;
    samples.take_due(gate)?;
    let report = report_of(alloc, gate, &desk, &peaks, samples, digests, spans)?;
    written(alloc, &report, form)
}

/// A gate behind the audit's records, and whoever looked on while they were made again.
fn see<G: ShowsRecords + ShowsState>(
    alloc: Global,
    policy: &Policy,
    audit: &[u8],
    spans: Spans,
) -> Result<(G, ReportWatch), AuditFault>
    ensures taken { IfOk result (λ seen. AreTaken
        (G.state seen.0).policy seen.1.second.first (G.state seen.0).records) }
    ensures fault { IfErr result (λ e. IsAnswer policy.now audit.now (Err e)) }
{
    let Ok(mut watch) = watch_of(alloc, policy, audit, spans) else {
        return Err(AuditFault::OutOfMemory);
    };
    let gate = replay_watched(alloc, policy, audit, u64::MAX, &mut watch)?;
    Ok((gate, watch))
}

/// The report of an audit's day under the policy, in this form. The audit is in any version, and may be cut in its last
/// record, as the journal of a server that runs may be. Each step is made again on a gate of its own, a `G`, while another
/// thread, where there is one, digests the audit.
///
/// # Errors
///
/// As of [`check_audit`](gx_audit::check_audit); `Truncated` only where the bytes are too few for a header.
pub fn day_report<G: ShowsRecords + ShowsState + Send, R: Threads + Sync>(
    rt: &R,
    alloc: Global,
    policy: &Policy,
    audit: &[u8],
    form: ReportForm,
) -> Result<Vec<u8>, AuditFault>
    ensures fault { IfErr result (λ e. IsAnswer policy.now audit.now (Err e)) }
{
    let spans = spans_of(audit);
    let (seen, digests) = join(
        rt,
        || -> Result<(G, ReportWatch), AuditFault>
            ensures taken { IfOk result (λ seen. AreTaken
                (G.state seen.0).policy seen.1.second.first (G.state seen.0).records) }
            ensures fault { IfErr result (λ e. IsAnswer policy.entry.now audit.entry.now (Err e)) }
        { see::<G>(alloc, policy, audit, spans) },
        || -> Digests { Digests::of(audit, policy) },
    );
    let (gate, watch) = seen?;
    let text = text_of(alloc, &gate, watch, digests, spans, form);
    gate.close();
    match text {
        Ok(text) => Ok(text),
        Err(OutOfMemory) => Err(AuditFault::OutOfMemory),
    }
}
