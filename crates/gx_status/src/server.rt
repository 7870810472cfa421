//! What a server says of itself, as a Prometheus server reads it.

ghost use Rattle.std.specs.Prelude.{◌≡◌, ◌++◌, ◌≤◌, codes, get_or, length, sum, IfOk, OnOk};
ghost use Rattle.gx_status.specs.Metrics.{answers_count, answers_family, answers_figure, answers_sum, bound_name, bucket_sample, bucket_samples, connections_figure, journal_bytes_figure, journal_failures_figure, journaled_figure, seconds_sample, seconds_text, server_figures};

use crate::metrics::{append_family, append_figure, append_large_sample, append_large_sample_of};
use gx_control::{AnswerCounts, JournalCounts};
use gx_text::{append, append_number, append_with_zeros};
use gx_units::OutOfMemory;

/// The nanoseconds of a second.
const SECOND: u64 = 1_000_000_000;

/// The bounds of the buckets of times, in seconds, with spaces behind the shorter ones.
static BOUNDS: [[u8; 8]; 16] = [
    *b"0.00001 ",
    *b"0.000025",
    *b"0.00005 ",
    *b"0.0001  ",
    *b"0.00025 ",
    *b"0.0005  ",
    *b"0.001   ",
    *b"0.0025  ",
    *b"0.005   ",
    *b"0.01    ",
    *b"0.025   ",
    *b"0.05    ",
    *b"0.1     ",
    *b"0.25    ",
    *b"0.5     ",
    *b"1       ",
];

/// What a server says of itself.
#[derive(Clone, Copy)]
pub struct ServerFigures {
    /// Whether it has a journal.
    pub is_journaled: bool,
    /// How many connections it serves.
    pub connections: u16,
    /// How much this run has written to its journal: nothing where it has none.
    pub journal: JournalCounts,
    /// How long it took until users were told of steps.
    pub answers: AnswerCounts,
}

#[tactic(auto, unfolding(crate::specs::Metrics::connections_figure))]
fn append_connections(text: &mut Vec<u8>, connections: u16) -> Result<(), OutOfMemory>
    ensures { OnOk result (text.new.items ≡ text.old.items ++ connections_figure connections) }
{
    append_figure(
        text,
        b"boskurige_connections",
        b"Connections that are served.",
        b"gauge",
        u64::from(connections),
    )
}

#[tactic(auto, unfolding(crate::specs::Metrics::journaled_figure))]
fn append_journaled(text: &mut Vec<u8>, is_journaled: bool) -> Result<(), OutOfMemory>
    ensures { OnOk result (text.new.items ≡ text.old.items ++ journaled_figure is_journaled) }
{
    append_figure(
        text,
        b"boskurige_journaled",
        b"1 where each record is kept before it is told.",
        b"gauge",
        if is_journaled { 1 } else { 0 },
    )
}

#[tactic(auto, unfolding(crate::specs::Metrics::journal_bytes_figure))]
fn append_journal_bytes(text: &mut Vec<u8>, bytes: u64) -> Result<(), OutOfMemory>
    ensures { OnOk result (text.new.items ≡ text.old.items ++ journal_bytes_figure bytes) }
{
    append_figure(
        text,
        b"boskurige_journal_bytes_total",
        b"Bytes of records that were written to the journal.",
        b"counter",
        bytes,
    )
}

#[tactic(auto, unfolding(crate::specs::Metrics::journal_failures_figure))]
fn append_journal_failures(text: &mut Vec<u8>, failures: u64) -> Result<(), OutOfMemory>
    ensures { OnOk result (text.new.items ≡ text.old.items ++ journal_failures_figure failures) }
{
    append_figure(
        text,
        b"boskurige_journal_failures_total",
        b"Writes to the journal that failed.",
        b"counter",
        failures,
    )
}

/// The bound of a bucket among these.
fn name_at(names: &[[u8; 8]], bucket: usize) -> [u8; 8]
    ensures { result ≡ get_or names.now bucket (codes "+Inf    ") }
{
    match names.get(bucket) {
        Some(name) => *name,
        None => *b"+Inf    ",
    }
}

/// The bound of a bucket, in seconds.
fn bound_name(bucket: usize) -> [u8; 8]
    ensures { result ≡ bound_name bucket }
{
    name_at(&BOUNDS, bucket)
}

/// So many answers took no longer than the bound of the bucket.
#[tactic(auto, unfolding(crate::specs::Metrics::bucket_sample))]
fn append_bucket(text: &mut Vec<u8>, bucket: usize, count: u128) -> Result<(), OutOfMemory>
    ensures { OnOk result (text.new.items ≡ text.old.items ++ bucket_sample bucket count) }
{
    append_large_sample_of(
        text,
        b"boskurige_answer_seconds_bucket",
        b"le",
        &bound_name(bucket),
        count,
    )
}

/// The samples of all buckets, each of which counts what falls into those before it, too. Answers how many answers there are.
fn append_buckets(text: &mut Vec<u8>, counts: &[u64]) -> Result<u128, OutOfMemory>
    requires { length counts.now ≤ 17 }
    ensures buckets { OnOk result
        (text.new.items ≡ text.old.items ++ bucket_samples 0 0 counts.now) }
    ensures all { IfOk result (λ all. all ≡ sum counts.now) }
{
    let mut all: u128 = 0;
    for (bucket, count) in counts.iter().enumerate() {
        all += u128::from(*count);
        append_bucket(text, bucket, all)?;
    }
    Ok(all)
}

#[tactic(auto, unfolding(crate::specs::Metrics::answers_family))]
fn append_answers_family(text: &mut Vec<u8>) -> Result<(), OutOfMemory>
    ensures { OnOk result (text.new.items ≡ text.old.items ++ answers_family) }
{
    append_family(
        text,
        b"boskurige_answer_seconds",
        b"From a step until its report was sent.",
        b"histogram",
    )
}

/// Nanoseconds, as seconds.
fn append_seconds(text: &mut Vec<u8>, nanoseconds: u64) -> Result<(), OutOfMemory>
    ensures { OnOk result (text.new.items ≡ text.old.items ++ seconds_text nanoseconds) }
{
    append_number(text, nanoseconds / SECOND)?;
    append(text, b".")?;
    append_with_zeros(text, 9, nanoseconds % SECOND)
}

/// A sample of seconds.
fn append_seconds_sample(
    text: &mut Vec<u8>,
    name: &[u8],
    nanoseconds: u64,
) -> Result<(), OutOfMemory>
    ensures { OnOk result
        (text.new.items ≡ text.old.items ++ seconds_sample name.now nanoseconds) }
{
    append(text, name)?;
    append(text, b" ")?;
    append_seconds(text, nanoseconds)?;
    append(text, b"\n")
}

/// How long all took together.
#[tactic(auto, unfolding(crate::specs::Metrics::answers_sum))]
fn append_answers_sum(text: &mut Vec<u8>, nanoseconds: u64) -> Result<(), OutOfMemory>
    ensures { OnOk result (text.new.items ≡ text.old.items ++ answers_sum nanoseconds) }
{
    append_seconds_sample(text, b"boskurige_answer_seconds_sum", nanoseconds)
}

/// How many there are.
#[tactic(auto, unfolding(crate::specs::Metrics::answers_count))]
fn append_answers_count(text: &mut Vec<u8>, all: u128) -> Result<(), OutOfMemory>
    ensures { OnOk result (text.new.items ≡ text.old.items ++ answers_count all) }
{
    append_large_sample(text, b"boskurige_answer_seconds_count", all)
}

fn append_answers(text: &mut Vec<u8>, answers: &AnswerCounts) -> Result<(), OutOfMemory>
    ensures { OnOk result (text.new.items ≡ text.old.items ++ answers_figure answers.now) }
{
    append_answers_family(text)?;
    let all = append_buckets(text, &answers.by_bucket)?;
    append_answers_sum(text, answers.nanoseconds)?;
    append_answers_count(text, all)
}

/// Puts the figures of a server at the end of the text: how many connections it serves, whether it has a journal and how much
/// was written to that, and how long it took until users were told of steps.
///
/// # Errors
///
/// `OutOfMemory` where memory was refused; then a part of them may stand at the end of the text.
pub fn append_server_figures(text: &mut Vec<u8>, server: &ServerFigures) -> Result<(), OutOfMemory>
    ensures { OnOk result (text.new.items ≡ text.old.items ++ server_figures server.now) }
{
    append_connections(text, server.connections)?;
    append_journaled(text, server.is_journaled)?;
    append_journal_bytes(text, server.journal.bytes)?;
    append_journal_failures(text, server.journal.failures)?;
    append_answers(text, &server.answers)
}
