//! The steps of a kill from the page.

ghost use Rattle.std.specs.Prelude.{◌≡◌, ◌+◌, IfErr, IfOk, IfSome, IsSome, OnErr, OnOk, Some};
ghost use Rattle.gx_history.specs.declared.record.Request.TheVariants as requests;
ghost use Rattle.gx_door.specs.Acts.{asked_on, IsLater};
ghost use Rattle.gx_button.specs.Steps.{is_staff, kill_command, AsksAndLeaves, IsPermitted, IsRefusal, KillsOn, MakesDeed, step_of, steps_of, StepsOn};

use crate::permission::may_kill;
use crate::token::{Secret, same_token};
use gx_access_gate::{LoginAnswer, Outcome, StepFault};
use gx_desk::{Action, Command, Tag};
use gx_door::{Caller, Dial, Door, EndedTotals, Turned};
use gx_history::record::Request;
use gx_http::{Credentials, KillForm};
use gx_policy::Policy;
use gx_units::{AccountName, LoginRejection, Moment, SessionName};
use std::sync::Wait;

/// A blank name, which means the day's session.
const ANY_SESSION: SessionName = SessionName { bytes: [b' '; 10] };

/// What the page's commands are tagged with: their answers are read from the steps, and not from a stream.
const TAG: Tag = Tag {
    bytes: *b"PAGE          ",
};

/// Why nothing is done.
#[derive(Clone, Copy, PartialEq, Eq)]
pub enum Refusal {
    /// Nobody is named, or not an officer or a reader with his password.
    Unauthorized,
    /// The token is not that of his page.
    NoToken,
    /// He is no officer who has the power to kill, or the account is not his.
    NoPower,
}

/// A kill that was decided.
#[derive(Clone, Copy)]
pub struct Decided {
    /// What its record says.
    pub outcome: Outcome,
    /// What it ended.
    pub ended: EndedTotals,
}

/// What was done on the page's line for a caller who may kill the account.
#[derive(Clone, Copy)]
pub enum Deed {
    /// His login was refused: nothing is on record.
    Refused(StepFault),
    /// His login was denied: he is logged in elsewhere.
    Rejected(LoginRejection),
    /// He was logged in, and then his Kill and his Logout came to this.
    Asked(Result<Decided, StepFault>, Result<Outcome, StepFault>),
}

/// Whether the caller is an officer or a reader, with his password. No step is made.
fn is_staff<D: Door, R: Wait>(door: &D, rt: &R, who: &Credentials) -> bool
    ensures { result ≡ is_staff D.policy who.now }
{
    door.caller(rt, who.user, who.password) == Caller::Staff
}

/// Who may kill the account of the form, or why nobody may.
fn permitted<D: Door, R: Wait>(
    door: &D,
    rt: &R,
    policy: &Policy,
    secret: &Secret,
    caller: Option<Credentials>,
    form: &KillForm,
) -> Result<Credentials, Refusal>
    requires policy { policy.now ≡ D.policy }
    ensures caller { IfOk result (λ who. caller ≡ Some who) }
    ensures permitted { IfOk result (λ who.
        IsPermitted D.policy secret.now.bytes who form.now) }
    ensures refused { IfErr result (IsRefusal D.policy secret.now.bytes caller form.now) }
{
    let Some(who) = caller else {
        return Err(Refusal::Unauthorized);
    };
    if !is_staff(door, rt, &who) {
        return Err(Refusal::Unauthorized);
    }
    let user = who.user.folded();
    if !same_token(&form.token, &secret.token(user)) {
        return Err(Refusal::NoToken);
    }
    if !may_kill(policy, user, form.account) {
        return Err(Refusal::NoPower);
    }
    Ok(who)
}

/// The request for a kill of the account.
fn kill_request(account: AccountName) -> Request
    ensures { result ≡ kill_command TAG account }
{
    Request::Command(Command {
        tag: TAG,
        action: Action::Kill(account),
    })
}

/// The command of a caller who was logged in. No matching step is made behind it: a kill leaves no order that waits.
#[tactic(auto, using(crate::proofs::Step_call::kills_on))]
fn ask<D: Door, R: Wait + Dial>(
    door: &D,
    rt: &R,
    pass: D::Pass,
    who: &Credentials,
    account: AccountName,
    moment: Moment,
) -> (D::Pass, Result<Decided, StepFault>)
    requires clock { R.shown moment }
    ensures later { IsLater D.policy (D.observed pass) (D.observed result.0) }
    ensures step { KillsOn D.policy (D.observed pass) (D.observed result.0)
        (asked_on (D.observed pass).line
        who.now.user (kill_command TAG account) moment) result.1 }
    ensures adds { D.added result.0 ≡ D.added pass + step_of result.1 }
{
    let request = kill_request(account);
    let (pass, turned) = door.turn(rt, pass, who.user, request, moment, 0);
    match turned {
        Ok(
            Turned {
                outcome,
                ended,
                matched: _,
            },
        ) => (pass, Ok(Decided { outcome, ended })),
        Err(fault) => (pass, Err(fault)),
    }
}

/// The logout of a caller who was logged in.
#[tactic(auto, using(crate::proofs::Step_call::steps_on))]
fn leave<D: Door, R: Wait + Dial>(
    door: &D,
    rt: &R,
    pass: D::Pass,
    who: &Credentials,
    moment: Moment,
) -> (D::Pass, Result<Outcome, StepFault>)
    requires clock { R.shown moment }
    ensures later { IsLater D.policy (D.observed pass) (D.observed result.0) }
    ensures step { StepsOn D.policy (D.observed pass) (D.observed result.0)
        (asked_on (D.observed pass).line who.now.user requests.Logout moment) result.1 }
    ensures adds { D.added result.0 ≡ D.added pass + step_of result.1 }
{
    door.logout(rt, pass, who.user, moment)
}

/// The command and the logout of a caller who was logged in.
fn ask_and_leave<D: Door, R: Wait + Dial>(
    door: &D,
    rt: &R,
    pass: D::Pass,
    who: &Credentials,
    account: AccountName,
) -> (
    D::Pass,
    Result<Decided, StepFault>,
    Result<Outcome, StepFault>,
)
    ensures later { IsLater D.policy (D.observed pass) (D.observed result.0) }
    ensures steps { AsksAndLeaves D.policy (D.observed pass) (D.observed result.0) who.now
        (kill_command TAG account) result.1 result.2 }
    ensures adds { D.added result.0 ≡ D.added pass + step_of result.1 + step_of result.2 }
{
    let asked_at = rt.moment();
    let (asking, kill) = ask(door, rt, pass, who, account, asked_at);
    let left_at = rt.moment();
    let (leaving, logout) = leave(door, rt, asking, who, left_at);
    (leaving, kill, logout)
}

/// Logs the caller in on the page's line, makes his Kill of the account, and logs him out.
fn kill_as<D: Door, R: Wait + Dial>(
    door: &D,
    rt: &R,
    pass: D::Pass,
    who: &Credentials,
    account: AccountName,
) -> (D::Pass, Deed)
    ensures later { IsLater D.policy (D.observed pass) (D.observed result.0) }
    ensures steps { MakesDeed D.policy (D.observed pass) (D.observed result.0) who.now
        (kill_command TAG account) result.1 }
    ensures adds { D.added result.0 ≡ D.added pass + steps_of result.1 }
{
    let moment = rt.moment();
    let (pass, answer) = door.login(rt, pass, who.user, who.password, ANY_SESSION, 0, moment);
    match answer {
        Err(fault) => (pass, Deed::Refused(fault)),
        Ok(LoginAnswer::Rejected(reason)) => (pass, Deed::Rejected(reason)),
        Ok(LoginAnswer::Accepted { .. }) => {
            let (pass, kill, logout) = ask_and_leave(door, rt, pass, who, account);
            (pass, Deed::Asked(kill, logout))
        }
    }
}

/// A kill from the page: where the caller has the password of an officer who may kill the account, and the form has the token
/// of his page, his Login, his Kill and his Logout are made as steps on the line of the pass, and nothing else is; and nothing
/// at all where he may not.
///
/// # Errors
///
/// Why he may not: the first reason of `Unauthorized`, `NoToken` and `NoPower`.
pub fn kill<D: Door, R: Wait + Dial>(
    door: &D,
    rt: &R,
    policy: &Policy,
    secret: &Secret,
    pass: D::Pass,
    caller: Option<Credentials>,
    form: &KillForm,
) -> (D::Pass, Result<Deed, Refusal>)
    requires policy { policy.now ≡ D.policy }
    ensures later { OnOk result.1 (IsLater D.policy (D.observed pass) (D.observed result.0)) }
    ensures untouched { OnErr result.1 (result.0 ≡ pass) }
    ensures refused { IfErr result.1 (IsRefusal D.policy secret.now.bytes caller form.now) }
    ensures permitted { OnOk result.1 (IfSome caller (λ who.
        IsPermitted D.policy secret.now.bytes who form.now)) }
    ensures named { OnOk result.1 (IsSome caller) }
    ensures steps { IfOk result.1 (λ deed. IfSome caller (λ who.
        MakesDeed D.policy (D.observed pass) (D.observed result.0) who
        (kill_command TAG form.now.account) deed)) }
    ensures adds { IfOk result.1 (λ deed. D.added result.0 ≡ D.added pass + steps_of deed) }
{
    match permitted(door, rt, policy, secret, caller, form) {
        Ok(who) => {
            let (pass, deed) = kill_as(door, rt, pass, &who, form.account);
            (pass, Ok(deed))
        }
        Err(why) => (pass, Err(why)),
    }
}
