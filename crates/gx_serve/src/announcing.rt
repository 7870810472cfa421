//! What is announced of a command that ended orders.

ghost use Rattle.std.specs.Prelude.{◌≡◌};
ghost use Rattle.gx_units.specs.Spelling.{folded_user};
ghost use Rattle.gx_history.specs.Requests.{is_granted};
ghost use Rattle.gx_serve.specs.Announcements.{announced_by, announced_of, ending_command};

use gx_access_gate::Outcome;
use gx_desk::Action;
use gx_door::EndedTotals;
use gx_history::record::{Request, Verdict};
use gx_units::{AccountName, Moment, UserName};
use std::marker::Model;

/// A command that ends live orders.
#[derive(Clone, Copy, PartialEq, Eq)]
pub enum EndedBy {
    /// A Kill of this account: its orders.
    Kill(AccountName),
    /// A Close Day: all orders.
    CloseDay,
}

/// The orders that a granted Kill or Close Day ended.
#[derive(Clone, Copy, PartialEq, Eq)]
pub struct EndedOrders {
    /// Who gave the command, in upper case.
    pub officer: UserName,
    /// The command that ended them.
    pub by: EndedBy,
    /// The number of its record.
    pub number: u64,
    /// The moment of its record.
    pub moment: Moment,
    /// How many orders, and how many of their shares were open.
    pub ended: EndedTotals,
}

/// A runtime that announces what commands ended, as a log does.
pub trait Announces {
    /// A granted Kill or Close Day has ended these orders. Whoever calls it holds no lock.
    fn announce(&self, orders: &EndedOrders);
}

/// That it was announced what a command ended, if it was one. It is made by announcing alone.
#[derive(Drop)]
pub struct Announced {
    orders: Option<EndedOrders>,
}

impl Model for Announced {
    ghost use Rattle.std.specs.Prelude.{Option};
    ghost use Rattle.gx_serve.specs.declared.announcing.EndedOrders.{EndedOrders};

    ghost Value = { Option EndedOrders };

    ghost view = { λ a. a.orders };
}

/// Announces what a command ended, if there is anything to announce.
pub fn announce<R: Announces>(rt: &R, orders: Option<EndedOrders>) -> Announced
    ensures { result ≡ orders }
{
    if let Some(orders) = &orders {
        rt.announce(orders);
    }
    Announced { orders }
}

/// What the command ends, if it ends live orders.
fn ended_by(action: &Action) -> Option<EndedBy>
    ensures { result ≡ ending_command action.now }
{
    match action {
        Action::Kill(account) => Some(EndedBy::Kill(*account)),
        Action::CloseDay => Some(EndedBy::CloseDay),
        _ => None,
    }
}

/// Whether a request was granted.
fn is_granted(verdict: &Verdict) -> bool
    ensures { result ≡ is_granted verdict.now }
{
    matches!(verdict, Verdict::Granted)
}

/// What is to be announced of a command of this user, which was decided so and ended so much.
pub fn announced_by(
    user: UserName,
    outcome: &Outcome,
    ended: EndedTotals,
    action: &Action,
) -> Option<EndedOrders>
    ensures { result ≡ announced_by (folded_user user) outcome.now ended action.now }
{
    if !is_granted(&outcome.verdict) {
        return None;
    }
    let by = ended_by(action)?;
    Some(EndedOrders {
        officer: user.folded(),
        by,
        number: outcome.number,
        moment: outcome.moment,
        ended,
    })
}

/// What is to be announced of a user's request, which was decided so and ended so much.
pub(crate) fn announced_of(
    user: UserName,
    request: &Request,
    outcome: &Outcome,
    ended: EndedTotals,
) -> Option<EndedOrders>
    ensures { result ≡ announced_of (folded_user user) request.now outcome.now ended }
{
    match request {
        Request::Command(command) => announced_by(user, outcome, ended, &command.action),
        _ => None,
    }
}
