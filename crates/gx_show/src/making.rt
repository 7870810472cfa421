//! Which order a record makes, and which it speaks of.

ghost use Rattle.std.specs.Prelude.{◌≡◌};
ghost use Rattle.gx_show.specs.{Choosing.{is_matched, is_such_order, order_named, speaks_of}, Known.{order_made, made_by}, Testing.passes};
ghost use Rattle.gx_history.specs.Requests.{asked_of, granted_of, named_token};

use crate::known_order::{KnownOrder, OrderTest};
use crate::known_orders::KnownOrders;
use gx_history::record::{Asked, RecordData, Request, Step, Verdict};
use gx_policy::Policy;
use gx_units::Token;

/// What was asked, where the record is of a request.
pub(crate) fn asked_in(shown: &RecordData) -> Option<Asked>
    ensures { result ≡ asked_of shown.now.step }
{
    match shown.step {
        Step::Asked(asked) => Some(asked),
        Step::Matching(_) => None,
    }
}

/// What was granted, if anything was.
pub(crate) fn granted_in(shown: &RecordData) -> Option<Asked>
    ensures { result ≡ granted_of shown.now }
{
    match shown.verdict {
        Verdict::Granted => asked_in(shown),
        _ => None,
    }
}

/// The order that the record makes.
pub(crate) fn made(policy: &Policy, known: &KnownOrders, shown: &RecordData) -> Option<KnownOrder>
    ensures { result ≡ order_made policy.now known.now shown.now }
{
    let asked = granted_in(shown)?;
    made_by(policy, known, shown.number, &asked)
}

/// The order that a granted request makes.
fn made_by(policy: &Policy, known: &KnownOrders, number: u64, asked: &Asked) -> Option<KnownOrder>
    ensures { result ≡ made_by policy.now known.now number asked.now.user asked.now.request }
{
    match asked.request {
        Request::Enter(m) => {
            let account = policy.account_of(asked.user)?;
            Some(KnownOrder {
                number,
                user: asked.user,
                account,
                token: m.token,
                stock: m.stock,
            })
        }
        Request::Replace(m) => {
            let replaced = known.under(asked.user, m.existing_token)?;
            Some(KnownOrder {
                number,
                token: m.replacement_token,
                ..replaced
            })
        }
        _ => None,
    }
}

/// The token of the order that is to be replaced or cancelled.
fn named_token(request: &Request) -> Option<Token>
    ensures { result ≡ named_token request.now }
{
    match request {
        Request::Replace(m) => Some(m.existing_token),
        Request::Cancel(m) => Some(m.token),
        _ => None,
    }
}

/// The order that a Replace or a Cancel names.
fn named(known: &KnownOrders, shown: &RecordData) -> Option<KnownOrder>
    ensures { result ≡ order_named known.now shown.now }
{
    let asked = asked_in(shown)?;
    let token = named_token(&asked.request)?;
    known.under(asked.user, token)
}

/// Whether there is an order, and it passes the test.
fn is_such(order: Option<KnownOrder>, test: OrderTest) -> bool
    ensures { result ≡ is_such_order (passes test) order }
{
    match order {
        Some(order) => order.passes(test),
        None => false,
    }
}

/// Whether an order that was matched passes the test.
fn is_matched(known: &KnownOrders, verdict: &Verdict, test: OrderTest) -> bool
    ensures { result ≡ is_matched known.now (passes test) verdict.now }
{
    match verdict {
        Verdict::Filled(fill) => {
            is_such(known.numbered(fill.taker), test) || is_such(known.numbered(fill.maker), test)
        }
        Verdict::Rested(order) | Verdict::Expired(order) => is_such(known.numbered(*order), test),
        _ => false,
    }
}

/// Whether the record speaks of an order that passes the test: it makes one, or names one, or one was matched.
pub(crate) fn speaks_of(
    policy: &Policy,
    known: &KnownOrders,
    shown: &RecordData,
    test: OrderTest,
) -> bool
    ensures { result ≡ speaks_of policy.now known.now shown.now (passes test) }
{
    is_such(made(policy, known, shown), test)
        || (is_such(named(known, shown), test) || is_matched(known, &shown.verdict, test))
}
