//! What becomes of a request.

ghost use Rattle.std.specs.Prelude.{◌≡◌, Err, IfOk, MatchResult, Ok, OnErr};
ghost use Rattle.gx_page.specs.declared.reply.PageReply.TheVariants as replies;
ghost use mathlib.Core.List.{IsPrefix};
ghost use Rattle.gx_pass.specs.Views.{mine};
ghost use Rattle.gx_page.specs.Replies.{kill_announced, health_of, IsKillTold, IsReply};

use crate::viewer::viewer;
use gx_board::{Board, BoardView};
use gx_button::{Deed, Refusal, Secret, kill};
use gx_desk::Action;
use gx_door::{Dial, Door};
use gx_http::{Credentials, KillForm, Request, RequestTarget};
use gx_overview::day::DayRow;
use gx_policy::Policy;
use gx_records::{ShowsRecords, ShowsState};
use gx_serve::{Announced, Announces, EndedOrders, announce, announced_by};
use gx_units::{OutOfMemory, UserName};
use std::alloc::Global;
use std::sync::Wait;

/// Nobody's name: he is shown no account.
const NOBODY: UserName = UserName { bytes: [b' '; 6] };

/// Whether a gate takes orders.
#[derive(Clone, Copy, PartialEq, Eq)]
pub enum Health {
    /// It does.
    Well,
    /// Its day is closed.
    Closed,
    /// Its day has as many records as it may have.
    Full,
}

/// What becomes of a request.
#[derive(Drop)]
pub enum PageReply {
    /// Its user is given the page.
    Page,
    /// Its user is given the page's script.
    Script,
    /// Its user is given the page's style sheet.
    Style,
    /// This user is told what he is shown of the day.
    State(UserName, BoardView),
    /// This user is told the figures of what he is shown.
    Metrics(UserName, BoardView),
    /// Whoever asks is told whether the gate takes orders.
    Health(Health),
    /// It asks for what is an officer's or a reader's, and has not the name and the password of one.
    Stranger,
    /// A kill was asked for: what was done, or why nothing was, and that it was announced what it ended.
    Kill(Result<Deed, Refusal>, Announced),
}

impl Health {
    /// That of a gate whose day is so far.
    fn of(day: &DayRow) -> Health
        ensures { result ≡ health_of day.now }
    {
        if day.is_closed {
            Health::Closed
        } else if day.left == 0 {
            Health::Full
        } else {
            Health::Well
        }
    }
}

/// Whether the gate takes orders, by what is shown of it.
fn told_health(seen: Result<BoardView, OutOfMemory>) -> Result<PageReply, OutOfMemory>
    ensures { MatchResult seen (λ v. result ≡ Ok (replies.Health (health_of v.day)))
        (λ e. result ≡ Err e) }
{
    match seen {
        Ok(view) => Ok(PageReply::Health(Health::of(&view.day))),
        Err(refused) => Err(refused),
    }
}

/// What the user is told of what he is shown.
fn told_state(
    user: UserName,
    seen: Result<BoardView, OutOfMemory>,
) -> Result<PageReply, OutOfMemory>
    ensures { MatchResult seen (λ v. result ≡ Ok (replies.State user v))
        (λ e. result ≡ Err e) }
{
    match seen {
        Ok(view) => Ok(PageReply::State(user, view)),
        Err(refused) => Err(refused),
    }
}

/// The figures of what the user is shown.
fn told_metrics(
    user: UserName,
    seen: Result<BoardView, OutOfMemory>,
) -> Result<PageReply, OutOfMemory>
    ensures { MatchResult seen (λ v. result ≡ Ok (replies.Metrics user v))
        (λ e. result ≡ Err e) }
{
    match seen {
        Ok(view) => Ok(PageReply::Metrics(user, view)),
        Err(refused) => Err(refused),
    }
}

/// What is to be announced of a kill: what it ended, where it was granted.
fn ended_of(
    caller: Option<Credentials>,
    form: &KillForm,
    done: &Result<Deed, Refusal>,
) -> Option<EndedOrders>
    ensures { result ≡ kill_announced caller form.now done.now }
{
    match (caller, done) {
        (Some(who), Ok(Deed::Asked(Ok(decided), _))) => {
            let action = Action::Kill(form.account);
            announced_by(who.user, &decided.outcome, decided.ended, &action)
        }
        _ => None,
    }
}

/// What is done for a kill that the caller asks for, or why nothing is. What it ended is announced.
fn kill_for<T: Drop, D: Door<Pass = T>, G: ShowsRecords + ShowsState, R: Wait + Dial + Announces>(
    rt: &R,
    door: &D,
    policy: &Policy,
    secret: &Secret,
    board: Board<D, G>,
    caller: Option<Credentials>,
    form: &KillForm,
) -> (Board<D, G>, Result<Deed, Refusal>, Announced)
    requires policy { policy.now ≡ D.policy }
    ensures kill { IsKillTold D.policy secret.now.bytes board result.0
        caller form.now result.1 result.2 }
    ensures later { IsPrefix board.front result.0.front }
{
    let (pass, replica) = board.into_parts();
    let (pass, done) = kill(door, rt, policy, secret, pass, caller, form);
    let announced = announce(rt, ended_of(caller, form, &done));
    (Board::new(pass, replica), done, announced)
}

/// What becomes of a request. A kill makes steps on the line of the board's pass; nothing else makes any. What is shown is of
/// all that the pass had met, and so of each kill that was made with it.
///
/// # Errors
///
/// `OutOfMemory` where memory was refused. No step was made then.
pub(crate) fn reply_to<
    T: Drop,
    D: Door<Pass = T>,
    G: ShowsRecords + ShowsState,
    R: Wait + Dial + Announces,
>(
    rt: &R,
    alloc: Global,
    door: &D,
    policy: &Policy,
    secret: &Secret,
    board: Board<D, G>,
    request: &Request,
) -> (Board<D, G>, Result<PageReply, OutOfMemory>)
    requires policy { policy.now ≡ D.policy }
    ensures reply { IfOk result.1
        (IsReply D.policy secret.now.bytes board result.0 request.now) }
    ensures refused { OnErr result.1 (mine result.0 ≡ mine board) }
    ensures later { IsPrefix board.front result.0.front }
{
    let user = viewer(rt, door, request.caller);
    match (request.asked, user) {
        (RequestTarget::Kill(form), _) => {
            let caller = request.caller;
            let (board, done, announced) = kill_for(rt, door, policy, secret, board, caller, &form);
            (board, Ok(PageReply::Kill(done, announced)))
        }
        (RequestTarget::Health, _) => {
            let (board, seen) = board.view(rt, door, policy, alloc, NOBODY);
            (board, told_health(seen))
        }
        (RequestTarget::State, Some(user)) => {
            let (board, seen) = board.view(rt, door, policy, alloc, user);
            (board, told_state(user, seen))
        }
        (RequestTarget::Metrics, Some(user)) => {
            let (board, seen) = board.view(rt, door, policy, alloc, user);
            (board, told_metrics(user, seen))
        }
        (RequestTarget::Page, Some(_)) => (board, Ok(PageReply::Page)),
        (RequestTarget::Script, Some(_)) => (board, Ok(PageReply::Script)),
        (RequestTarget::Style, Some(_)) => (board, Ok(PageReply::Style)),
        (_, None) => (board, Ok(PageReply::Stranger)),
    }
}
