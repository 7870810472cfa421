//! The rules that every policy has.

ghost use Rattle.std.specs.Prelude.{◌≡◌};
ghost use Rattle.gx_history.specs.Rules.{forbids};

use crate::request::{is_command, is_login, is_order, names_order, proposed, takes_nothing};
use gx_history::facts::Facts;
use gx_history::record::Request;
use gx_policy::RuleName;
use gx_units::Price;

/// Whether the built-in rule of this name forbids the request. A rule of the file forbids nothing here:
/// [`RuleBook::first_forbidding`](crate::RuleBook::first_forbidding) asks those.
pub fn is_forbidden(name: RuleName, facts: &Facts, request: &Request) -> bool
    ensures { result ≡ forbids name facts.now request.now }
{
    let asked = proposed(facts, request);
    match name {
        RuleName::L1 => is_login(request) && !facts.may_log_in,
        RuleName::L2 => is_login(request) && facts.is_logged_in,
        RuleName::L3 => is_login(request) && !facts.session_is_available,
        RuleName::G1 => !is_login(request) && !facts.is_on_this_line,
        RuleName::G2 => !facts.role_fits,
        RuleName::G3 => matches!(request, Request::Unreadable(_)),
        RuleName::I1 => is_order(request) && facts.token_is_used,
        RuleName::I2 => names_order(request) && facts.target_order.is_none(),
        RuleName::I3 => takes_nothing(facts.target_order, request),
        RuleName::P1 => is_order(request) && facts.day_is_closed,
        RuleName::P2 => is_order(request) && facts.account_is_killed,
        RuleName::P3 => matches!(request, Request::Enter(_)) && !facts.firm_fits,
        RuleName::P4 => matches!(request, Request::Enter(_)) && !facts.stock_is_listed,
        RuleName::P5 => asked.is_some_and(|w| w.shares == 0 || w.shares >= 1_000_000),
        RuleName::P6 => asked.is_some_and(|w| Price::checked(w.price).is_none()),
        RuleName::P7 => asked.is_some_and(|w| w.display != b'A' && w.display != b'Y'),
        RuleName::P8 => asked.is_some_and(|w| !matches!(w.time_in_force, 0 | 99_998 | 99_999)),
        RuleName::P9 => asked.is_some_and(|w| w.minimum_quantity != 0),
        RuleName::P10 => match request {
            Request::Enter(m) => m.cross_type != b'N',
            _ => false,
        },
        RuleName::P11 => match request {
            Request::Enter(m) => !matches!(m.side, b'B' | b'S' | b'T' | b'E'),
            _ => false,
        },
        RuleName::P12 => asked.is_some_and(|w| !w.is_new && w.shares <= w.done),
        RuleName::Q1 => is_command(request) && !facts.names_are_known,
        RuleName::Q2 => is_command(request) && !facts.has_power,
        RuleName::Q3 => is_command(request) && !facts.accounts_are_his,
        RuleName::Q4 => is_command(request) && !facts.would_change,
        RuleName::File(_) => false,
    }
}
