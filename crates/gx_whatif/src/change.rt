//! A record whose verdict changes.

ghost use Rattle.std.specs.Prelude.{◌≡◌};
ghost use Rattle.gx_whatif.specs.Differing.{asker, change_where, in_day, is_as_told, same_fill, same_verdict, source_of};

use gx_history::record::{Fill, RecordData, Step, Verdict};
use gx_units::UserName;

/// A record of a day whose verdict is another under another policy.
#[derive(Clone, Copy, PartialEq, Eq)]
pub struct VerdictChange {
    /// The number of the record; the first of the day is 1.
    pub number: u64,
    /// Who asked; None of a matching step.
    pub user: Option<UserName>,
    /// The verdict that stands in the record.
    pub recorded: Verdict,
    /// The verdict under the other policy, with each order by the number that it has in the day: that of the record whose
    /// step it came of. None of a matching step that finds no order waiting there.
    pub told: Option<Verdict>,
}

/// The number in the day of the order of this one.
fn source_of(sources: &[u64], number: u64) -> u64
    ensures { result ≡ source_of sources.now number }
{
    sources.get(number as usize).copied().unwrap_or(number)
}

/// The verdict, with each order by its number in the day.
pub(crate) fn in_day(sources: &[u64], verdict: Verdict) -> Verdict
    ensures { result ≡ in_day sources.now verdict }
{
    match verdict {
        Verdict::Granted => Verdict::Granted,
        Verdict::Denied(rule) => Verdict::Denied(rule),
        Verdict::Filled(fill) => Verdict::Filled(Fill {
            taker: source_of(sources, fill.taker),
            maker: source_of(sources, fill.maker),
            shares: fill.shares,
            price: fill.price,
        }),
        Verdict::Rested(number) => Verdict::Rested(source_of(sources, number)),
        Verdict::Expired(number) => Verdict::Expired(source_of(sources, number)),
    }
}

fn same_fill(one: &Fill, other: &Fill) -> bool
    ensures { result ≡ same_fill one.now other.now }
{
    one.taker == other.taker
        && one.maker == other.maker
        && one.shares == other.shares
        && one.price == other.price
}

/// Whether both are the same verdict: granted, denied by rules of one name, the same fill, or the same order that rests or
/// expires.
fn same_verdict(one: &Verdict, other: &Verdict) -> bool
    ensures { result ≡ same_verdict one.now other.now }
{
    match (one, other) {
        (Verdict::Granted, Verdict::Granted) => true,
        (Verdict::Denied(rule), Verdict::Denied(other)) => rule.id() == other.id(),
        (Verdict::Filled(fill), Verdict::Filled(other)) => same_fill(fill, other),
        (Verdict::Rested(order), Verdict::Rested(other)) => *order == *other,
        (Verdict::Expired(order), Verdict::Expired(other)) => *order == *other,
        _ => false,
    }
}

fn is_as_told(recorded: &Verdict, told: &Option<Verdict>) -> bool
    ensures { result ≡ is_as_told recorded.now told.now }
{
    match told {
        Some(told) => same_verdict(recorded, told),
        None => false,
    }
}

/// Who asked for the step.
fn asker(step: &Step) -> Option<UserName>
    ensures { result ≡ asker step.now }
{
    match step {
        Step::Asked(asked) => Some(asked.user),
        Step::Matching(_) => None,
    }
}

/// The change of a record of which this is told, if it is one.
pub(crate) fn change_where(left: &RecordData, told: Option<Verdict>) -> Option<VerdictChange>
    ensures { result ≡ change_where left.now told }
{
    if is_as_told(&left.verdict, &told) {
        return None;
    }
    Some(VerdictChange {
        number: left.number,
        user: asker(&left.step),
        recorded: left.verdict,
        told,
    })
}
