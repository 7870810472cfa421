//! What is asked of the gate, and what answers it.

ghost use Rattle.std.specs.Prelude.{◌≡◌, IfOk};
ghost use Rattle.gx_operator.specs.{Asking.{Carries, request_wished, kill_of, kills_of, killed_account}, Answering.{decides, cancels, answers_order, answers_request}};

use crate::serial::serial;
use gx_client::{command_packet, inbound_packet};
use gx_desk::{Action, Command, Tag};
use gx_history::report::Message;
use gx_ouch::{Inbound, Outbound};
use gx_terminal::Wish;
use gx_units::{AccountName, OutOfMemory, Token};
use std::alloc::Global;

/// What is asked of the gate.
#[derive(Clone, Copy, PartialEq, Eq)]
pub enum ClientRequest {
    /// A command of an officer.
    Command(Command),
    /// A message of a trader.
    Order(Inbound),
}

/// A Kill of the account, under the serial of this number.
fn kill_of(number: u64, account: AccountName) -> ClientRequest
    ensures { result ≡ kill_of number account }
{
    ClientRequest::Command(Command {
        tag: Tag {
            bytes: serial(number),
        },
        action: Action::Kill(account),
    })
}

/// The command or the order that is wished, under the serial of this number; None where the wish is neither.
pub(crate) fn asked_of(number: u64, wish: &Wish) -> Option<ClientRequest>
    ensures { result ≡ request_wished number wish.now }
{
    let bytes = serial(number);
    if let Some(command) = wish.command(Tag { bytes }) {
        return Some(ClientRequest::Command(command));
    }
    let order = wish.order(Token { bytes })?;
    Some(ClientRequest::Order(order))
}

/// A Kill of each account, in this order, under the serials from this number on.
pub(crate) fn kills_of(
    alloc: Global,
    number: u64,
    accounts: &[AccountName],
) -> Result<Vec<ClientRequest>, OutOfMemory>
    ensures { IfOk result (λ kills. kills.items ≡ kills_of number accounts.now) }
{
    let mut kills = Vec::new(alloc);
    let mut next = number;
    for account in accounts {
        kills.push(kill_of(next, *account))?;
        next = next.saturating_add(1);
    }
    Ok(kills)
}

impl ClientRequest {
    /// The account that it asks to kill, if it is a Kill.
    pub fn killed_account(&self) -> Option<AccountName>
        ensures { result ≡ killed_account self.now }
    {
        match self {
            ClientRequest::Command(
                Command {
                    action: Action::Kill(account),
                    ..
                },
            ) => Some(*account),
            _ => None,
        }
    }

    /// The packet that carries it.
    pub(crate) fn packet(&self, alloc: Global) -> Result<Vec<u8>, OutOfMemory>
        ensures { IfOk result (λ bytes. Carries bytes.items self.now) }
    {
        match self {
            ClientRequest::Command(command) => command_packet(alloc, command),
            ClientRequest::Order(order) => inbound_packet(alloc, order),
        }
    }
}

fn decides(token: Token, message: &Outbound) -> bool
    ensures { result ≡ decides token message.now }
{
    match message {
        Outbound::Accepted(accepted) => accepted.token == token,
        Outbound::Replaced(replaced) => replaced.token == token,
        Outbound::Rejected(rejected) => rejected.token == token,
        Outbound::SystemEvent(_) | Outbound::Canceled(_) | Outbound::Executed(_) => false,
    }
}

fn cancels(token: Token, message: &Outbound) -> bool
    ensures { result ≡ cancels token message.now }
{
    match message {
        Outbound::Canceled(canceled) => canceled.token == token,
        _ => false,
    }
}

fn answers_order(message: &Outbound, order: &Inbound) -> bool
    ensures { result ≡ answers_order message.now order.now }
{
    match order {
        Inbound::Enter(order) => decides(order.token, message),
        Inbound::Replace(order) => decides(order.replacement_token, message),
        Inbound::Cancel(order) => cancels(order.token, message),
    }
}

/// Whether the message answers what was asked: a command by its tag, a new order by its own token, a cancel by the token
/// that it names.
pub(crate) fn answers(message: &Message, asked: &ClientRequest) -> bool
    ensures { result ≡ answers_request message.now asked.now }
{
    match (message, asked) {
        (Message::Answer(answer), ClientRequest::Command(command)) => answer.tag == command.tag,
        (Message::Order(message), ClientRequest::Order(order)) => answers_order(message, order),
        _ => false,
    }
}
