//! What a record's body shows of a request.

ghost use Rattle.std.specs.Prelude.{◌≡◌, ◌≤◌, Some, length};
ghost use Rattle.gx_ouch.specs.{Layout.{laid_out, HasSizes}, Messages.{enter_order, replace_order, cancel_order}, Contents.{enter_contents, replace_contents, cancel_contents}};
ghost use Rattle.gx_history.specs.Payloads.{request_of};
ghost use Rattle.gx_history.specs.declared.record.Request.TheVariants as requests;
ghost use Rattle.gx_audit_bytes.specs.{Bodies.{request_body, request_kind, yes_or_no, zero_padded}, Reading.request_in};
ghost use Rattle.gx_desk.specs.Contents.{command_contents, command_layout, LimitFits};

use crate::draft::RecordDraft;
use gx_desk::{Action, Command};
use gx_history::record::Request;
use gx_ouch::{CancelOrder, EnterOrder, ReplaceOrder};

/// The kind of a request: a message's type, or a digit.
pub(crate) fn request_kind(request: &Request) -> u8
    ensures { result ≡ request_kind request.now }
{
    match request {
        Request::Login(_) => b'1',
        Request::Logout => b'2',
        Request::Unreadable(_) => b'3',
        Request::Enter(_) => b'O',
        Request::Replace(_) => b'U',
        Request::Cancel(_) => b'X',
        Request::Command(command) => command.action.command_type(),
    }
}

/// What a record shows of the request, at most 49 bytes.
#[tactic(auto, unfolding(crate::specs::Bodies::request_body), using(crate::proofs::Request_read::enter_in, crate::proofs::Request_read::replace_in, crate::proofs::Request_read::cancel_in, crate::proofs::Request_read::command_in, crate::proofs::Request_read::login_read, crate::proofs::Request_read::unreadable_read, crate::proofs::Request_read::logout_read))]
pub(crate) fn request_body(request: &Request) -> RecordDraft
    ensures bytes { result ≡ request_body request.now }
    ensures within { length result ≤ 49 }
    ensures read { request_in (request_kind request.now) (zero_padded 58 result)
        ≡ Some request.now }
{
    match request {
        Request::Login(login) => {
            let mut draft = RecordDraft::new();
            draft.put(&[yes_or_no(login.password_is_right)]);
            draft.put(&[yes_or_no(login.session_is_right)]);
            draft.put(&login.wanted.to_be_bytes());
            draft
        }
        Request::Logout => RecordDraft::new(),
        Request::Unreadable(payload) => {
            let mut draft = RecordDraft::new();
            draft.put(&payload.length.to_be_bytes());
            draft.put(&[payload.first]);
            draft
        }
        Request::Enter(order) => enter_order(order),
        Request::Replace(order) => replace_order(order),
        Request::Cancel(order) => cancel_order(order),
        Request::Command(command) => command_message(command),
    }
}

fn yes_or_no(right: bool) -> u8
    ensures { result ≡ yes_or_no right }
{
    if right { b'Y' } else { b'N' }
}

#[tactic(auto, using(crate::proofs::Message_read::enter_read))]
fn enter_order(order: &EnterOrder) -> RecordDraft
    ensures bytes { result ≡ laid_out enter_order (enter_contents order.now) }
    ensures len { length result ≡ 49 }
    ensures asks { request_of result ≡ requests.Enter order.now }
{
    let mut draft = RecordDraft::new();
    draft.put(b"O");
    draft.put(&order.token.bytes);
    draft.put(&[order.side]);
    draft.put(&order.shares.to_be_bytes());
    draft.put(&order.stock.bytes);
    draft.put(&order.price.to_be_bytes());
    draft.put(&order.time_in_force.to_be_bytes());
    draft.put(&order.firm.bytes);
    draft.put(&[order.display]);
    draft.put(&[order.capacity]);
    draft.put(&[order.intermarket_sweep]);
    draft.put(&order.minimum_quantity.to_be_bytes());
    draft.put(&[order.cross_type]);
    draft.put(&[order.customer_type]);
    draft
}

#[tactic(auto, using(crate::proofs::Message_read::replace_read))]
fn replace_order(order: &ReplaceOrder) -> RecordDraft
    ensures bytes { result ≡ laid_out replace_order (replace_contents order.now) }
    ensures len { length result ≡ 47 }
    ensures asks { request_of result ≡ requests.Replace order.now }
{
    let mut draft = RecordDraft::new();
    draft.put(b"U");
    draft.put(&order.existing_token.bytes);
    draft.put(&order.replacement_token.bytes);
    draft.put(&order.shares.to_be_bytes());
    draft.put(&order.price.to_be_bytes());
    draft.put(&order.time_in_force.to_be_bytes());
    draft.put(&[order.display]);
    draft.put(&[order.intermarket_sweep]);
    draft.put(&order.minimum_quantity.to_be_bytes());
    draft
}

#[tactic(auto, using(crate::proofs::Message_read::cancel_read))]
fn cancel_order(order: &CancelOrder) -> RecordDraft
    ensures bytes { result ≡ laid_out cancel_order (cancel_contents order.now) }
    ensures len { length result ≡ 19 }
    ensures asks { request_of result ≡ requests.Cancel order.now }
{
    let mut draft = RecordDraft::new();
    draft.put(b"X");
    draft.put(&order.token.bytes);
    draft.put(&order.shares.to_be_bytes());
    draft
}

#[tactic(auto, using(crate::proofs::Message_read::command_read))]
fn command_message(command: &Command) -> RecordDraft
    ensures bytes { result
        ≡ laid_out (command_layout command.now.action) (command_contents command.now) }
    ensures len { length result ≡ (command_layout command.now.action).size }
    ensures asks { request_of result ≡ requests.Command command.now }
{
    command_draft(command)
}

fn command_draft(command: &Command) -> RecordDraft
    ensures bytes { result
        ≡ laid_out (command_layout command.now.action) (command_contents command.now) }
    ensures len { length result ≡ (command_layout command.now.action).size }
    ensures sizes { HasSizes (command_layout command.now.action) (command_contents command.now) }
    ensures fits { LimitFits command.now.action }
{
    let mut draft = RecordDraft::new();
    draft.put(&[command.action.command_type()]);
    draft.put(&command.tag.bytes);
    match &command.action {
        Action::Kill(account) | Action::Lift(account) => draft.put(&account.bytes),
        Action::SetLimit(rule, limit) => {
            draft.put(&rule.bytes);
            draft.put(&limit.to_be_bytes());
        }
        Action::Restrict(rule, stock) | Action::Unrestrict(rule, stock) => {
            draft.put(&rule.bytes);
            draft.put(&stock.bytes);
        }
        Action::Grant(reader, account) | Action::Revoke(reader, account) => {
            draft.put(&reader.bytes);
            draft.put(&account.bytes);
        }
        Action::CloseDay => {}
    }
    draft
}
