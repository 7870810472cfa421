//! What a granted command does to the state.

ghost use Rattle.std.specs.Prelude.{◌≡◌, IsFalse, IsOk, OnOk, OnErr};
ghost use Rattle.gx_history.specs.declared.moves.Move.TheVariants as moves;
ghost use Rattle.gx_history.specs.Streams.{lift_code};
ghost use Rattle.gx_gate_state.specs.{Ends.{code_by, close_reports, day_end_reports, next_reports, with_next_reports, with_close_reports, with_day_end_reports, trades, HaveReservedFor}, State.{AreAfter, AreBefore, IsNext, IsReserved, KeepRoom}, Settings.grows};

use crate::ends::{end_orders, near_ended, tell_of_ends};
use crate::next_record::NextRecord;
use crate::reports::{answer, day_end, tell};
use crate::settings::set;
use crate::state::GateState;
use gx_desk::{Action, AnswerCode, Command};
use gx_history::report::Report;
use gx_index::Near;
use gx_orders::Orders;
use gx_policy::{Policy, Role, User};
use gx_streams::Streams;
use gx_trading_status::TradingStatus;
use gx_units::{Moment, OutOfMemory, UserName};

/// Whether the user trades for an account.
fn trades(user: &User) -> bool
    ensures { result ≡ trades user.now }
{
    match user.role {
        Role::Trader(_) => true,
        _ => false,
    }
}

/// Tells each trader of the end of the day.
fn tell_of_day_end(streams: &mut Streams, policy: &Policy, moment: Moment)
    requires { HaveReservedFor (day_end_reports moment policy.now.users) streams.old }
    ensures { streams.new ≡ with_day_end_reports moment policy.now.users streams.old }
{
    for user in policy.users() {
        if trades(user) {
            streams.append_reserved(
                user.name,
                0,
                Report {
                    timestamp: moment,
                    message: day_end(),
                },
            );
        }
    }
}

/// Tells each trader of the end of the day, where the command closes it.
fn tell_of_close(streams: &mut Streams, policy: &Policy, action: &Action, moment: Moment)
    requires { HaveReservedFor (close_reports action.now moment policy.now.users) streams.old }
    ensures { streams.new ≡ with_close_reports action.now moment policy.now.users streams.old }
{
    match action {
        Action::CloseDay => tell_of_day_end(streams, policy, moment),
        _ => {}
    }
}

/// Tells of a granted command: the users of the orders that it ends, who are looked for at this place first, then each
/// trader of the end of the day, if it closes it, and last the officer, with this code.
fn tell_of_command(
    streams: &mut Streams,
    orders: &Orders,
    near: Near,
    next: NextRecord<'_>,
    officer: UserName,
    c: &Command,
    code: AnswerCode,
)
    requires { HaveReservedFor
        (next_reports next officer c.now code orders.now.live) streams.old }
    ensures { streams.new
        ≡ with_next_reports next.entry officer c.now code orders.now.live streams.old }
{
    let moment = next.data.moment;
    tell_of_ends(streams, orders, &c.action, near, moment);
    tell_of_close(streams, next.policy, &c.action, moment);
    let answered = answer(next.data, c, code);
    tell(streams, officer, next.near.user, moment, Some(answered));
}

/// The code of the answer to a granted action, by the day that it leaves.
fn granted_code(status: &TradingStatus, action: &Action) -> AnswerCode
    ensures { result ≡ code_by status.now action.now }
{
    match *action {
        Action::Lift(account) => lift_code(status.is_killed(account, 0)),
        _ => AnswerCode::Done,
    }
}

/// The code of the answer to a granted Lift, by whether its account is killed still.
fn lift_code(still_killed: bool) -> AnswerCode
    ensures { result ≡ lift_code still_killed }
{
    if still_killed {
        AnswerCode::PartlyLifted
    } else {
        AnswerCode::Done
    }
}

/// A granted command: what it sets is in force from the next record on, and the orders that it is
/// for end. Only a setting takes memory.
///
/// # Errors
///
/// `OutOfMemory`: there was no memory for another span of fills that a reader gets, or for one more
/// stock in a list, and nothing has changed.
pub fn apply_command(
    state: &mut GateState,
    next: NextRecord<'_>,
    officer: UserName,
    c: &Command,
) -> Result<(), OutOfMemory>
    requires takes { IsNext next state.old }
    requires places { IsReserved next state.old }
    requires commands { next.moves.now ≡ moves.Commands officer c.now }
    ensures ok { OnOk result (AreAfter next.entry state.new) }
    ensures err { OnErr result (AreBefore next.entry state.new) }
    ensures room { KeepRoom state.old.streams state.new.streams }
    ensures sure { IsFalse (grows c.now.action) → IsOk result }
{
    // What this ensures: no two users have one name.
    let _ = next.policy.rules();
    set(
        &mut state.people,
        &mut state.streams,
        &mut state.rules,
        next.policy,
        &c.action,
    )?;
    state.status.apply(next.moves, next.data.moment);
    let code = granted_code(&state.status, &c.action);
    let near = near_ended(&state.people, &state.orders, &c.action);
    tell_of_command(
        &mut state.streams,
        &state.orders,
        near,
        next,
        officer,
        c,
        code,
    );
    end_orders(
        &mut state.ledger,
        &mut state.orders,
        &mut state.book,
        &c.action,
        near,
    );
    Ok(())
}
