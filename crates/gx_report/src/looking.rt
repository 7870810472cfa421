//! Who looks on while the day's records are made again.

ghost use Rattle.std.specs.Prelude.{◌≡◌, [], IfOk};
ghost use Rattle.gx_endings.specs.{Commands.command_rows, Endings.endings};
ghost use Rattle.gx_peaks.specs.Noting.{AreOver};
ghost use Rattle.gx_report.specs.Samples.{AreTaken};

use crate::samples::{Samples, Seat};
use gx_endings::Both;
use gx_endings::commands::Commands;
use gx_endings::endings::Endings;
use gx_peaks::Peaks;
use gx_policy::{Account, Count, ExposureLimit, FileRule, Policy, RuleKind};
use gx_units::OutOfMemory;
use std::alloc::Global;

/// What officers asked for, and what of it ended orders.
pub type Desk = Both<Commands, Endings>;

/// All that is noted for a report while the records are made again.
pub type ReportWatch = Both<Desk, Both<Samples, Peaks>>;

fn push_seats(
    seats: &mut Vec<Seat>,
    rule: &FileRule,
    is_net: bool,
    count: Count,
    accounts: &[Account],
) -> Result<(), OutOfMemory> {
    for account in accounts {
        if rule.scope.covers(account.name) {
            seats.push(Seat {
                rule: rule.name,
                account: account.name,
                is_net,
            })?;
            if count == Count::Together {
                return Ok(());
            }
        }
    }
    Ok(())
}

/// The accounts of each gross and net rule whose figures differ: each that it is for, or one where it counts them together.
pub(crate) fn seats_of(alloc: Global, policy: &Policy) -> Result<Vec<Seat>, OutOfMemory> {
    let mut seats = Vec::new(alloc);
    for rule in policy.rules() {
        match &rule.kind {
            RuleKind::Exposure(ExposureLimit::GrossShares | ExposureLimit::GrossValue, _, count) =>
                { push_seats(&mut seats, rule, false, *count, policy.accounts())? }
            RuleKind::Exposure(ExposureLimit::NetShares, _, count) => {
                push_seats(&mut seats, rule, true, *count, policy.accounts())?
            }
            _ => {}
        }
    }
    Ok(seats)
}

/// Whoever looks on for a report of a day under the policy, with samples behind each of these counts of records, in rising
/// order.
///
/// # Errors
///
/// `OutOfMemory` where memory was refused.
pub fn watch_for(
    alloc: Global,
    policy: &Policy,
    counts: Vec<u64>,
) -> Result<ReportWatch, OutOfMemory>
    ensures commands { IfOk result (λ watch.
        watch.first.first.list.items ≡ command_rows policy.now []) }
    ensures endings { IfOk result (λ watch.
        watch.first.second.list.items ≡ endings policy.now []) }
    ensures samples { IfOk result (λ watch. AreTaken policy.now watch.second.first []) }
    ensures peaks { IfOk result (λ watch. AreOver policy.now [] watch.second.second) }
{
    let seats = seats_of(alloc, policy)?;
    Ok(Both {
        first: Both {
            first: Commands::new(alloc),
            second: Endings::new(alloc),
        },
        second: Both {
            first: Samples::new(alloc, seats, counts),
            second: Peaks::new(alloc),
        },
    })
}
