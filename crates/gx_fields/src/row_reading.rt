//! The record of a row.

ghost use Rattle.std.specs.Prelude.{◌≡◌};
ghost use Rattle.gx_fields.specs.declared.row.RowKind.TheVariants as kinds;
ghost use Rattle.gx_fields.specs.declared.row.RowVerdict.TheVariants as row_verdicts;
ghost use Rattle.gx_fields.specs.Rows.{action_in, asked_in, command_in, record_of, request_in, row_step, row_verdict};

use crate::row::{Row, RowKind, RowVerdict};
use gx_desk::{Action, Command};
use gx_history::record::{Asked, Fill, Login, RecordData, Request, Step, Unreadable, Verdict};
use gx_ouch::{CancelOrder, EnterOrder, ReplaceOrder};

/// The command that the row asks for, but for its tag.
fn action_in(row: &Row) -> Option<Action>
    ensures { result ≡ action_in row.now.kind row.now }
{
    match row.kind {
        RowKind::Kill => Some(Action::Kill(row.named_account?)),
        RowKind::Lift => Some(Action::Lift(row.named_account?)),
        RowKind::SetLimit => Some(Action::SetLimit(row.named_rule?, row.limit?)),
        RowKind::Restrict => Some(Action::Restrict(row.named_rule?, row.stock?)),
        RowKind::Unrestrict => Some(Action::Unrestrict(row.named_rule?, row.stock?)),
        RowKind::Grant => Some(Action::Grant(row.reader?, row.named_account?)),
        RowKind::Revoke => Some(Action::Revoke(row.reader?, row.named_account?)),
        RowKind::CloseDay => Some(Action::CloseDay),
        _ => None,
    }
}

/// The command that the row asks for.
fn command_in(row: &Row) -> Option<Request>
    ensures { result ≡ command_in row.now }
{
    let tag = row.tag?;
    let action = action_in(row)?;
    Some(Request::Command(Command { tag, action }))
}

/// The Enter that the row asks for.
fn enter_in(row: &Row) -> Option<Request>
    ensures { result ≡ request_in kinds.Enter row.now }
{
    Some(Request::Enter(EnterOrder {
        token: row.token?,
        side: row.side?,
        shares: row.shares?,
        stock: row.stock?,
        price: row.price?,
        time_in_force: row.time_in_force?,
        firm: row.firm?,
        display: row.display?,
        capacity: row.capacity?,
        intermarket_sweep: row.intermarket_sweep?,
        minimum_quantity: row.minimum_quantity?,
        cross_type: row.cross_type?,
        customer_type: row.customer_type?,
    }))
}

/// The Replace that the row asks for.
fn replace_in(row: &Row) -> Option<Request>
    ensures { result ≡ request_in kinds.Replace row.now }
{
    Some(Request::Replace(ReplaceOrder {
        existing_token: row.token?,
        replacement_token: row.new_token?,
        shares: row.shares?,
        price: row.price?,
        time_in_force: row.time_in_force?,
        display: row.display?,
        intermarket_sweep: row.intermarket_sweep?,
        minimum_quantity: row.minimum_quantity?,
    }))
}

/// The login that the row asks for.
fn login_in(row: &Row) -> Option<Request>
    ensures { result ≡ request_in kinds.Login row.now }
{
    Some(Request::Login(Login {
        password_is_right: row.password_is_right?,
        session_is_right: row.session_is_right?,
        wanted: row.wanted?,
    }))
}

/// The payload that was no message.
fn unreadable_in(row: &Row) -> Option<Request>
    ensures { result ≡ request_in kinds.Unreadable row.now }
{
    Some(Request::Unreadable(Unreadable {
        length: row.length?,
        first: row.first?,
    }))
}

/// The Cancel that the row asks for.
fn cancel_in(row: &Row) -> Option<Request>
    ensures { result ≡ request_in kinds.Cancel row.now }
{
    Some(Request::Cancel(CancelOrder {
        token: row.token?,
        shares: row.shares?,
    }))
}

/// The request of the row.
fn request_in(row: &Row) -> Option<Request>
    ensures { result ≡ request_in row.now.kind row.now }
{
    match row.kind {
        RowKind::Login => login_in(row),
        RowKind::Logout => Some(Request::Logout),
        RowKind::Unreadable => unreadable_in(row),
        RowKind::Enter => enter_in(row),
        RowKind::Replace => replace_in(row),
        RowKind::Cancel => cancel_in(row),
        _ => command_in(row),
    }
}

/// What was asked for, by whom and on which line.
fn asked_in(row: &Row) -> Option<Step>
    ensures { result ≡ asked_in row.now }
{
    let line = row.line?;
    let user = row.user?;
    let request = request_in(row)?;
    Some(Step::Asked(Asked {
        line,
        user,
        request,
        handed: row.handed,
    }))
}

/// The step of the row.
fn step_in(row: &Row) -> Option<Step>
    ensures { result ≡ row_step row.now.kind row.now }
{
    match row.kind {
        RowKind::Match => Some(Step::Matching(row.handed)),
        _ => asked_in(row),
    }
}

/// The fill of the row.
fn fill_in(row: &Row) -> Option<Verdict>
    ensures { result ≡ row_verdict row_verdicts.Filled row.now }
{
    Some(Verdict::Filled(Fill {
        taker: row.taker?,
        maker: row.maker?,
        shares: row.fill_shares?,
        price: row.fill_price?,
    }))
}

/// The verdict of the row.
fn verdict_in(row: &Row) -> Option<Verdict>
    ensures { result ≡ row_verdict row.now.verdict row.now }
{
    match row.verdict {
        RowVerdict::Granted => Some(Verdict::Granted),
        RowVerdict::Denied => Some(Verdict::Denied(row.rule?)),
        RowVerdict::Filled => fill_in(row),
        RowVerdict::Rested => Some(Verdict::Rested(row.order?)),
        RowVerdict::Expired => Some(Verdict::Expired(row.order?)),
    }
}

/// The record of a row; `None` where a field is missing that such a record has.
/// Part of the interface: it shows that a row holds all that its record does.
#[tactic(auto, unfolding(crate::specs::Rows::record_of))]
pub fn record_of(row: &Row) -> Option<RecordData>
    ensures { result ≡ record_of row.now }
{
    let step = step_in(row)?;
    let verdict = verdict_in(row)?;
    Some(RecordData {
        number: row.number,
        moment: row.moment,
        step,
        verdict,
    })
}
