//! A part of a user's stream.

ghost use Rattle.std.specs.Prelude.{◌≡◌, ◌-◌, ◌^◌, ◌<◌, length};

use gx_history::report::Report;
use std::marker::Model;

/// Reports, the oldest first. Contracts see them as a list.
#[derive(Drop)]
pub struct Reports {
    items: Vec<Report>,
}

impl Model for Reports {
    ghost use Rattle.std.specs.Prelude.{List};
    ghost use Rattle.gx_history.specs.declared.report.Report.{Report};

    ghost Value = { List Report };

    ghost view = { λ list. list.items.items };
}

impl Reports {
    /// The list of these reports.
    pub fn new(items: Vec<Report>) -> Reports
        ensures { result ≡ items.items }
    {
        Reports { items }
    }

    /// The reports, in their order.
    pub fn as_slice(&self) -> &[Report]
        ensures { result.now ≡ self.now }
    {
        self.items.as_slice()
    }
}

/// A part of a user's stream.
#[derive(Drop)]
pub struct Pulled {
    /// The reports of the part, in their order.
    pub reports: Reports,
    /// The number after the last report given; where there is none, the number asked for, 0 counting as 1.
    pub next: u64,
    /// The day is closed, and no report is past these.
    pub ended: bool,
}

/// How far a pull came.
#[derive(Clone, Copy)]
pub struct Reached {
    /// The number after the last report given; where there is none, the number asked for, 0 counting as 1.
    pub next: u64,
    /// The day is closed, and no report is past these.
    pub ended: bool,
    /// Where the user stands among the policy's users; the place that was asked for, if he is none of them.
    pub place: usize,
}

/// How many reports there are: fewer than a pull may ask for.
pub fn count_of(reports: &[Report]) -> u64
    ensures count { result ≡ length reports.now }
    ensures within { length reports.now < 2 ^ 64 - 1 }
{
    reports.len() as u64
}
