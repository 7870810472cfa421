//! How many records there are, and what they say.

ghost use Rattle.std.specs.Prelude.{◌≡◌, [], ◌||◌, option_copied};
ghost use Rattle.gx_overview.specs.{Commands.is_officers, Accounts.one_more};
ghost use Rattle.gx_board.specs.Counting.{commands, counted_by, counts_of, denies, is_denial, is_meeting, line_asked_on};

use gx_history::record::{Asked, RecordData, Request, Step, Verdict, VerdictKind};
use gx_overview::commands::{is_command, is_grant};

/// What the records of a day say in numbers. A count stops at 64 bits: a day stays far below.
#[derive(Clone, Copy, PartialEq, Eq)]
pub struct Counts {
    /// All records.
    pub records: u64,
    /// Requests that were granted.
    pub granted: u64,
    /// Requests that were denied.
    pub denied: u64,
    /// Fills.
    pub fills: u64,
    /// The highest line that has a record; 0 where none has.
    pub highest_line: u16,
}

/// One more, where the condition holds.
#[inline(always)]
pub(crate) fn one_more(is_so: bool, count: u64) -> u64
    ensures { result ≡ one_more is_so count }
{
    if is_so {
        count.saturating_add(1)
    } else {
        count
    }
}

/// Whether a request was denied.
#[inline(always)]
fn is_denial(kind: Option<VerdictKind>) -> bool
    ensures { result ≡ is_denial kind }
{
    matches!(kind, Some(VerdictKind::Denied))
}

/// Whether two orders met.
#[inline(always)]
fn is_meeting(kind: Option<VerdictKind>) -> bool
    ensures { result ≡ is_meeting kind }
{
    matches!(kind, Some(VerdictKind::Filled))
}

/// Whether a record with this verdict and this request is among the last denials or the last commands.
#[inline(always)]
pub(crate) fn is_kept(kind: Option<VerdictKind>, asked: Option<&Asked>) -> bool
    ensures { result ≡ (is_denial kind || is_officers (option_copied asked.entry)) }
{
    is_denial(kind) || is_command(asked)
}

/// The line that it was asked on; 0 of a matching step.
#[inline(always)]
fn line_of(asked: Option<&Asked>) -> u16
    ensures { result ≡ line_asked_on (option_copied asked.entry) }
{
    match asked {
        Some(asked) => asked.line,
        None => 0,
    }
}

/// Whether a request was denied.
#[inline(always)]
pub(crate) fn denies(left: &RecordData) -> bool
    ensures { result ≡ denies left.now }
{
    matches!(left.verdict, Verdict::Denied(_))
}

/// Whether an officer asked for something.
#[inline(always)]
pub(crate) fn commands(left: &RecordData) -> bool
    ensures { result ≡ commands left.now }
{
    match &left.step {
        Step::Asked(asked) => matches!(asked.request, Request::Command(_)),
        Step::Matching(_) => false,
    }
}

impl Counts {
    /// Of no record.
    pub(crate) fn none() -> Counts
        ensures { result ≡ counts_of [] }
    {
        Counts {
            records: 0,
            granted: 0,
            denied: 0,
            fills: 0,
            highest_line: 0,
        }
    }

    /// The numbers, once a record with this verdict and this request has come.
    #[inline(always)]
    pub(crate) fn with_parts(self, kind: Option<VerdictKind>, asked: Option<&Asked>) -> Counts
        ensures { result ≡ counted_by kind (option_copied asked.entry) self }
    {
        Counts {
            records: self.records.saturating_add(1),
            granted: one_more(is_grant(kind), self.granted),
            denied: one_more(is_denial(kind), self.denied),
            fills: one_more(is_meeting(kind), self.fills),
            highest_line: self.highest_line.max(line_of(asked)),
        }
    }
}
