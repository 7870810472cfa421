//! Orders and commands, written as bytes.

ghost use Rattle.std.specs.Prelude.{◌≡◌, ◌≤◌, length, Some, IfOk};
ghost use Rattle.gx_ouch.specs.{Layout.{HasSizes, laid_out}, Reading.inbound_of};
ghost use Rattle.gx_ouch.specs.declared.inbound.Inbound.TheVariants as inbounds;
ghost use Rattle.gx_desk.specs.{Reading.command_of, Contents.{command_contents, command_layout, LimitFits}};

use gx_desk::{Action, Command};
use gx_ouch::{CancelOrder, EnterOrder, Inbound, MESSAGE_ROOM, MessageDraft, ReplaceOrder};
use gx_units::OutOfMemory;
use std::alloc::Global;

/// The bytes in which the gate reads this message of a trader.
///
/// # Errors
///
/// `OutOfMemory` where memory was refused.
pub fn write_inbound(alloc: Global, message: &Inbound) -> Result<Vec<u8>, OutOfMemory>
    ensures read { IfOk result (λ bytes. inbound_of bytes.items ≡ Some message.now) }
    ensures within { IfOk result (λ bytes. length bytes.items ≤ MESSAGE_ROOM) }
{
    to_vec(alloc, &inbound_draft(message))
}

/// The bytes in which the gate reads this command of an officer.
///
/// # Errors
///
/// `OutOfMemory` where memory was refused.
pub fn write_command(alloc: Global, command: &Command) -> Result<Vec<u8>, OutOfMemory>
    ensures read { IfOk result (λ bytes. command_of bytes.items ≡ Some command.now) }
    ensures within { IfOk result (λ bytes. length bytes.items ≤ MESSAGE_ROOM) }
{
    to_vec(alloc, &command_draft(command))
}

fn to_vec(alloc: Global, draft: &MessageDraft) -> Result<Vec<u8>, OutOfMemory>
    ensures bytes { IfOk result (λ bytes. bytes.items ≡ draft.now) }
    ensures within { IfOk result (λ bytes. length bytes.items ≤ MESSAGE_ROOM) }
{
    let mut room = [0; MESSAGE_ROOM];
    let length = draft.copy_to(&mut room);
    let bytes = Vec::from_slice(alloc, &room[..length])?;
    Ok(bytes)
}

fn inbound_draft(message: &Inbound) -> MessageDraft
    ensures { inbound_of result ≡ Some message.now }
{
    match message {
        Inbound::Enter(order) => enter_order(order),
        Inbound::Replace(order) => replace_order(order),
        Inbound::Cancel(order) => cancel_order(order),
    }
}

#[tactic(auto, using(gx_ouch::proofs::Requests_read::enter_read))]
fn enter_order(order: &EnterOrder) -> MessageDraft
    ensures { inbound_of result ≡ Some (inbounds.Enter order.now) }
{
    let mut draft = MessageDraft::new();
    draft.put(b"O");
    draft.put(&order.token.bytes);
    draft.put(&[order.side]);
    draft.put(&order.shares.to_be_bytes());
    draft.put(&order.stock.bytes);
    draft.put(&order.price.to_be_bytes());
    draft.put(&order.time_in_force.to_be_bytes());
    draft.put(&order.firm.bytes);
    draft.put(&[order.display]);
    draft.put(&[order.capacity]);
    draft.put(&[order.intermarket_sweep]);
    draft.put(&order.minimum_quantity.to_be_bytes());
    draft.put(&[order.cross_type]);
    draft.put(&[order.customer_type]);
    draft
}

#[tactic(auto, using(gx_ouch::proofs::Requests_read::replace_read))]
fn replace_order(order: &ReplaceOrder) -> MessageDraft
    ensures { inbound_of result ≡ Some (inbounds.Replace order.now) }
{
    let mut draft = MessageDraft::new();
    draft.put(b"U");
    draft.put(&order.existing_token.bytes);
    draft.put(&order.replacement_token.bytes);
    draft.put(&order.shares.to_be_bytes());
    draft.put(&order.price.to_be_bytes());
    draft.put(&order.time_in_force.to_be_bytes());
    draft.put(&[order.display]);
    draft.put(&[order.intermarket_sweep]);
    draft.put(&order.minimum_quantity.to_be_bytes());
    draft
}

#[tactic(auto, using(gx_ouch::proofs::Requests_read::cancel_read))]
fn cancel_order(order: &CancelOrder) -> MessageDraft
    ensures { inbound_of result ≡ Some (inbounds.Cancel order.now) }
{
    let mut draft = MessageDraft::new();
    draft.put(b"X");
    draft.put(&order.token.bytes);
    draft.put(&order.shares.to_be_bytes());
    draft
}

#[tactic(auto, using(gx_desk::proofs::Commands_read::command_read))]
fn command_draft(command: &Command) -> MessageDraft
    ensures { command_of result ≡ Some command.now }
{
    command_fields(command)
}

fn command_fields(command: &Command) -> MessageDraft
    ensures bytes { result
        ≡ laid_out (command_layout command.now.action) (command_contents command.now) }
    ensures len { length result ≡ (command_layout command.now.action).size }
    ensures sizes { HasSizes (command_layout command.now.action) (command_contents command.now) }
    ensures fits { LimitFits command.now.action }
{
    let mut draft = MessageDraft::new();
    draft.put(&[command.action.command_type()]);
    draft.put(&command.tag.bytes);
    match &command.action {
        Action::Kill(account) | Action::Lift(account) => draft.put(&account.bytes),
        Action::SetLimit(rule, limit) => {
            draft.put(&rule.bytes);
            draft.put(&limit.to_be_bytes());
        }
        Action::Restrict(rule, stock) | Action::Unrestrict(rule, stock) => {
            draft.put(&rule.bytes);
            draft.put(&stock.bytes);
        }
        Action::Grant(reader, account) | Action::Revoke(reader, account) => {
            draft.put(&reader.bytes);
            draft.put(&account.bytes);
        }
        Action::CloseDay => {}
    }
    draft
}
