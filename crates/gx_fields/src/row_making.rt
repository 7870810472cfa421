//! The row of a record.

ghost use Rattle.std.specs.Prelude.{◌≡◌, Some};
ghost use Rattle.gx_history.specs.declared.record.Request.TheVariants as requests;
ghost use Rattle.gx_fields.specs.Rows.{record_of, row_of, with_action, with_request, with_step, with_verdict};

use crate::row::{BLANK, Row, RowKind, RowVerdict};
use gx_desk::Action;
use gx_history::record::{RecordData, Request, Step, Verdict};
use gx_ouch::{EnterOrder, ReplaceOrder};

/// Puts the fields of a command into the row.
fn put_action(row: &mut Row, action: &Action)
    ensures { row.new ≡ with_action action.now row.old }
{
    match *action {
        Action::Kill(account) => {
            row.kind = RowKind::Kill;
            row.named_account = Some(account);
        }
        Action::Lift(account) => {
            row.kind = RowKind::Lift;
            row.named_account = Some(account);
        }
        Action::SetLimit(rule, limit) => {
            row.kind = RowKind::SetLimit;
            row.named_rule = Some(rule);
            row.limit = Some(limit);
        }
        Action::Restrict(rule, stock) => {
            row.kind = RowKind::Restrict;
            row.named_rule = Some(rule);
            row.stock = Some(stock);
        }
        Action::Unrestrict(rule, stock) => {
            row.kind = RowKind::Unrestrict;
            row.named_rule = Some(rule);
            row.stock = Some(stock);
        }
        Action::Grant(reader, account) => {
            row.kind = RowKind::Grant;
            row.reader = Some(reader);
            row.named_account = Some(account);
        }
        Action::Revoke(reader, account) => {
            row.kind = RowKind::Revoke;
            row.reader = Some(reader);
            row.named_account = Some(account);
        }
        Action::CloseDay => row.kind = RowKind::CloseDay,
    }
}

/// Puts the fields of an Enter into the row.
fn put_enter(row: &mut Row, m: &EnterOrder)
    ensures { row.new ≡ with_request (requests.Enter m.now) row.old }
{
    row.kind = RowKind::Enter;
    row.token = Some(m.token);
    row.side = Some(m.side);
    row.shares = Some(m.shares);
    row.stock = Some(m.stock);
    row.price = Some(m.price);
    row.time_in_force = Some(m.time_in_force);
    row.firm = Some(m.firm);
    row.display = Some(m.display);
    row.capacity = Some(m.capacity);
    row.intermarket_sweep = Some(m.intermarket_sweep);
    row.minimum_quantity = Some(m.minimum_quantity);
    row.cross_type = Some(m.cross_type);
    row.customer_type = Some(m.customer_type);
}

/// Puts the fields of a Replace into the row.
fn put_replace(row: &mut Row, m: &ReplaceOrder)
    ensures { row.new ≡ with_request (requests.Replace m.now) row.old }
{
    row.kind = RowKind::Replace;
    row.token = Some(m.existing_token);
    row.new_token = Some(m.replacement_token);
    row.shares = Some(m.shares);
    row.price = Some(m.price);
    row.time_in_force = Some(m.time_in_force);
    row.display = Some(m.display);
    row.intermarket_sweep = Some(m.intermarket_sweep);
    row.minimum_quantity = Some(m.minimum_quantity);
}

/// Puts the fields of a request into the row.
fn put_request(row: &mut Row, request: &Request)
    ensures { row.new ≡ with_request request.now row.old }
{
    match request {
        Request::Login(m) => {
            row.kind = RowKind::Login;
            row.password_is_right = Some(m.password_is_right);
            row.session_is_right = Some(m.session_is_right);
            row.wanted = Some(m.wanted);
        }
        Request::Logout => row.kind = RowKind::Logout,
        Request::Unreadable(m) => {
            row.kind = RowKind::Unreadable;
            row.length = Some(m.length);
            row.first = Some(m.first);
        }
        Request::Enter(m) => put_enter(row, m),
        Request::Replace(m) => put_replace(row, m),
        Request::Cancel(m) => {
            row.kind = RowKind::Cancel;
            row.token = Some(m.token);
            row.shares = Some(m.shares);
        }
        Request::Command(command) => {
            row.tag = Some(command.tag);
            put_action(row, &command.action);
        }
    }
}

/// Puts the fields of a step into the row.
fn put_step(row: &mut Row, step: &Step)
    ensures { row.new ≡ with_step step.now row.old }
{
    match step {
        Step::Asked(asked) => {
            row.handed = asked.handed;
            row.line = Some(asked.line);
            row.user = Some(asked.user);
            put_request(row, &asked.request);
        }
        Step::Matching(handed) => {
            row.kind = RowKind::Match;
            row.handed = *handed;
        }
    }
}

/// Puts the fields of a verdict into the row.
fn put_verdict(row: &mut Row, verdict: &Verdict)
    ensures { row.new ≡ with_verdict verdict.now row.old }
{
    match verdict {
        Verdict::Granted => row.verdict = RowVerdict::Granted,
        Verdict::Denied(rule) => {
            row.verdict = RowVerdict::Denied;
            row.rule = Some(*rule);
        }
        Verdict::Filled(fill) => {
            row.verdict = RowVerdict::Filled;
            row.taker = Some(fill.taker);
            row.maker = Some(fill.maker);
            row.fill_shares = Some(fill.shares);
            row.fill_price = Some(fill.price);
        }
        Verdict::Rested(order) => {
            row.verdict = RowVerdict::Rested;
            row.order = Some(*order);
        }
        Verdict::Expired(order) => {
            row.verdict = RowVerdict::Expired;
            row.order = Some(*order);
        }
    }
}

/// The row of a record: each of its fields, and none that such a record has not. The record is read back from it, by
/// [`record_of`](crate::record_of).
#[tactic(auto, using(crate::proofs::Row_read::read_back))]
pub fn row_of(shown: &RecordData) -> Row
    ensures row { result ≡ row_of shown.now }
    ensures read_back { record_of result ≡ Some shown.now }
{
    let mut row = BLANK;
    row.number = shown.number;
    row.moment = shown.moment;
    put_verdict(&mut row, &shown.verdict);
    put_step(&mut row, &shown.step);
    row
}
