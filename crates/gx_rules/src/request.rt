//! What kind of request it is, and what it asks for.

ghost use Rattle.std.specs.Prelude.{◌≡◌};
ghost use Rattle.gx_history.specs.{Requests.{is_login, is_command, is_order, names_order}, Rules.{proposed_order, takes_nothing}};

use gx_history::facts::{Facts, ProposedOrder};
use gx_history::live_order::LiveOrder;
use gx_history::record::Request;

/// The request is a Login Request.
pub fn is_login(request: &Request) -> bool
    ensures { result ≡ is_login request.now }
{
    matches!(request, Request::Login(_))
}

/// The request is a command of an officer.
pub fn is_command(request: &Request) -> bool
    ensures { result ≡ is_command request.now }
{
    matches!(request, Request::Command(_))
}

/// An Enter or a Replace.
pub fn is_order(request: &Request) -> bool
    ensures { result ≡ is_order request.now }
{
    matches!(request, Request::Enter(_) | Request::Replace(_))
}

/// A Replace or a Cancel.
pub fn names_order(request: &Request) -> bool
    ensures { result ≡ names_order request.now }
{
    matches!(request, Request::Replace(_) | Request::Cancel(_))
}

/// A Cancel that asks for no less than the present size of the order that it names.
pub fn takes_nothing(named: Option<LiveOrder>, request: &Request) -> bool
    ensures { result ≡ takes_nothing named request.now }
{
    match request {
        Request::Cancel(m) => named.is_some_and(|order| order.total <= m.shares),
        _ => false,
    }
}

/// What the request asks for, if it is an Enter, or a Replace of a live order.
pub fn proposed(facts: &Facts, request: &Request) -> Option<ProposedOrder>
    ensures { result ≡ proposed_order facts.now request.now }
{
    match request {
        Request::Enter(m) => Some(ProposedOrder {
            side: m.side,
            stock: m.stock,
            shares: m.shares,
            price: m.price,
            time_in_force: m.time_in_force,
            display: m.display,
            intermarket_sweep: m.intermarket_sweep,
            minimum_quantity: m.minimum_quantity,
            done: 0,
            is_new: true,
        }),
        Request::Replace(m) => {
            let order = facts.target_order?;
            Some(ProposedOrder {
                side: order.terms.side,
                stock: order.terms.stock,
                shares: m.shares,
                price: m.price,
                time_in_force: m.time_in_force,
                display: m.display,
                intermarket_sweep: m.intermarket_sweep,
                minimum_quantity: m.minimum_quantity,
                done: order.done,
                is_new: false,
            })
        }
        _ => None,
    }
}
