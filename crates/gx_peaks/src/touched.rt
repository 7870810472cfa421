//! Which figures a record can raise, and whose limit it sets.

ghost use Rattle.std.specs.Prelude.{◌≡◌, option_and_then};
ghost use Rattle.gx_history.specs.Requests.{action_of};
ghost use Rattle.gx_peaks.specs.Touching.{gains_of, set_by, set_in};

use gx_desk::Action;
use gx_history::record::{RecordData, Request, Step, Verdict};
use gx_records::ShowsState;
use gx_units::{AccountName, RuleId};

/// The account whose sell the record that comes next fills as the order that came in: it may get more than its own price.
pub fn gains_of<G: ShowsState>(gate: &G, next: &RecordData) -> Option<AccountName>
    ensures { result ≡ gains_of (G.state gate.now).policy (G.state gate.now).records next.now }
{
    let Verdict::Filled(fill) = next.verdict else {
        return None;
    };
    let Some(taker) = gate.live_order(fill.taker) else {
        return None;
    };
    if taker.terms.side == b'B' {
        return None;
    }
    Some(taker.account)
}

/// The rule whose limit a granted request sets.
fn set_by(request: &Request) -> Option<RuleId>
    ensures { result ≡ option_and_then set_by (action_of request.now) }
{
    match request {
        Request::Command(command) => match command.action {
            Action::SetLimit(rule, _) => Some(rule),
            _ => None,
        },
        _ => None,
    }
}

/// The rule whose limit the record sets.
pub fn set_in(left: &RecordData) -> Option<RuleId>
    ensures { result ≡ set_in left.now }
{
    match (&left.verdict, &left.step) {
        (Verdict::Granted, Step::Asked(asked)) => set_by(&asked.request),
        _ => None,
    }
}
