//! How long it takes until a user is told of a step.

ghost use Rattle.std.specs.Prelude.{◌≡◌};
ghost use Rattle.gx_serve.specs.Timings.{times_of};

use gx_control::AnswerCounts;
use gx_history::report::Report;
use gx_units::Moment;

/// How long it took until the moment `sent` for each of these reports, from the moment of the step that it tells of. A report
/// of a step before the login is told again, and not counted.
pub(crate) fn times_of(reports: &[Report], login: Moment, sent: Moment) -> AnswerCounts
    ensures { result ≡ times_of login sent reports.now }
{
    let mut counts = AnswerCounts::new();
    for report in reports {
        if login <= report.timestamp {
            counts.note(sent.saturating_sub(report.timestamp));
        }
    }
    counts
}
