//! How many orders, fills and denials there were in each of some spans of time: one pass over the records.

ghost use Rattle.std.specs.Prelude.{◌≡◌, ℕ, ◌<◌, Some, length, slice_get, vec_len, IfNone, IfOk, IfSome, IsFalse, IsTrue};
ghost use Rattle.gx_history.specs.Requests.{is_order};
ghost use Rattle.gx_activity.specs.{Spans.{is_in_span, span_row}, Spanning.{no_records, span_with, IsNoted}};

use gx_history::record::{Asked, Record, RecordData, Request, Step, Verdict};
use gx_history::records::Records;
use gx_units::{Moment, OutOfMemory};
use std::alloc::Global;

/// What there was in a span of time.
#[derive(Clone, Copy, PartialEq, Eq)]
pub struct SpanRow {
    /// How many Enters and Replaces were granted.
    pub orders: u64,
    /// How many matching steps filled.
    pub fills: u64,
    /// How many requests of any kind were denied.
    pub denials: u64,
}

const NO_RECORDS: SpanRow = SpanRow {
    orders: 0,
    fills: 0,
    denials: 0,
};

fn is_order(asked: &Asked) -> bool
    ensures { result ≡ is_order asked.now.request }
{
    match &asked.request {
        Request::Enter(_) | Request::Replace(_) => true,
        _ => false,
    }
}

impl SpanRow {
    /// With one more record.
    fn with(self, shown: &RecordData) -> SpanRow
        ensures { result ≡ span_with shown.now self }
    {
        let mut row = self;
        match (&shown.verdict, &shown.step) {
            (Verdict::Granted, Step::Asked(asked)) if is_order(asked) => {
                row.orders = row.orders.saturating_add(1);
            }
            (Verdict::Filled(_), _) => row.fills = row.fills.saturating_add(1),
            (Verdict::Denied(_), _) => row.denials = row.denials.saturating_add(1),
            _ => (),
        }
        row
    }
}

/// The number of the span that the moment lies in, from 0; None where it lies before the first.
fn span_at(from: Moment, width: u64, moment: Moment) -> Option<u64>
    requires lasting { 0 < width }
    ensures here { IfSome result (λ k. IsTrue (is_in_span from width k moment)) }
    ensures alone { IfSome result (λ here. (k : ℕ) → IsTrue (is_in_span from width k moment)
        → k ≡ here) }
    ensures before { IfNone result ((k : ℕ) → IsFalse (is_in_span from width k moment)) }
{
    if moment < from {
        return None;
    }
    Some((moment - from) / width)
}

/// Counts the record in the row of its span, where it lies in one.
fn note(rows: &mut [SpanRow], from: Moment, width: u64, left: &Record)
    requires lasting { 0 < width }
    ensures noted { IsNoted from width left.now rows.old rows.new }
{
    let shown = left.content();
    let Some(k) = span_at(from, width, shown.moment) else {
        return;
    };
    if k < rows.len() as u64 {
        let row = &mut rows[k as usize];
        *row = row.with(&shown);
    }
}

fn note_all(rows: &mut [SpanRow], from: Moment, width: u64, records: &Records<'_>)
    requires lasting { 0 < width }
    requires first { (k : ℕ) → k < length rows.old
        → slice_get rows.old k ≡ Some no_records }
    ensures noted { (k : ℕ) → k < length rows.old
        → slice_get rows.new k ≡ Some (span_row records.now from width k) }
{
    for place in 0..records.len() {
        note(rows, from, width, &records.at(place));
    }
}

/// What there was in each of so many spans of time, of so many nanoseconds each, the first from this moment on: row k is of the
/// moments from `from + k * width` on and before `from + (k + 1) * width`. It is one pass over the records.
///
/// # Errors
///
/// `OutOfMemory` where the rows were refused their memory.
pub fn span_rows(
    alloc: Global,
    records: &Records<'_>,
    from: Moment,
    width: u64,
    spans: usize,
) -> Result<Vec<SpanRow>, OutOfMemory>
    requires lasting { 0 < width }
    ensures spans { IfOk result (λ rows. vec_len rows ≡ spans) }
    ensures rows { IfOk result (λ rows. (k : ℕ) → k < spans
        → slice_get rows.items k ≡ Some (span_row records.now from width k)) }
{
    let mut rows = vec![in alloc; NO_RECORDS; spans]?;
    note_all(&mut rows, from, width, records);
    Ok(rows)
}
