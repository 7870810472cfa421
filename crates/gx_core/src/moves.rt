//! What a record does, by what was found to judge its step.

ghost use Rattle.std.specs.{Option.option_map_or, Prelude.{◌≡◌, ℕ}};
ghost use Rattle.gx_history.specs.{declared.{moves.Move.TheVariants.{Adds, Denies, Nothing, Replaces, Sizes}, «record».RecordData.RecordData}, LiveOrders.replacement_order, Turns.new_order, World.{move_by, World}};
ghost use Rattle.gx_history.specs.declared.record.Step.TheVariants as steps;
ghost use Rattle.gx_policy.specs.{declared.policy.PolicyData.PolicyData, People.account_of};
ghost use Rattle.gx_core.specs.{Known.order_asked, Moves.{done_by, granted_move}};

use crate::gate::Gate;
use gx_gate_state::listed::firm_of;
use gx_history::facts::Facts;
use gx_history::live_order::LiveOrder;
use gx_history::moves::Move;
use gx_history::record::{Asked, RecordData, Request, Verdict};
use gx_index::Near;
use gx_ouch::{EnterOrder, ReplaceOrder};
use gx_policy::{Policy, RuleName};
use gx_units::{AccountName, UserName};

/// The order of an Enter that the record grants, for this account, which is looked for at this place first.
fn order_of(
    policy: &Policy,
    left: &RecordData,
    user: UserName,
    account: AccountName,
    near: usize,
    m: &EnterOrder,
) -> LiveOrder
    ensures { result ≡ new_order policy.now left.now user account m.now }
{
    LiveOrder {
        number: left.number,
        user,
        account,
        token: m.token,
        terms: m.terms(firm_of(policy, account, near, m.firm)),
        total: m.shares,
        done: 0,
        waits: true,
    }
}

fn put_enter(
    moves: &mut Move,
    policy: &Policy,
    left: &RecordData,
    user: UserName,
    account: Option<AccountName>,
    near: usize,
    m: &EnterOrder,
)
    ensures { moves.new
        ≡ option_map_or (λ x. Adds (new_order policy.now left.now user x m.now)) account Nothing }
{
    match account {
        Some(account) => *moves = Move::Adds(order_of(policy, left, user, account, near, m)),
        None => *moves = Move::Nothing,
    }
}

fn put_replace(moves: &mut Move, left: &RecordData, named: &Option<LiveOrder>, m: &ReplaceOrder)
    ensures { moves.new ≡ option_map_or
        (λ old. Replaces old (replacement_order left.now m.now old)) named.now Nothing }
{
    match named {
        Some(old) => *moves = Move::Replaces(*old, old.replaced_by(left, m)),
        None => *moves = Move::Nothing,
    }
}

fn put_cancel(moves: &mut Move, named: &Option<LiveOrder>, size: u32)
    ensures { moves.new ≡ option_map_or (λ cut. Sizes cut size) named.now Nothing }
{
    match named {
        Some(cut) => *moves = Move::Sizes(*cut, size),
        None => *moves = Move::Nothing,
    }
}

/// Puts there what a granted request does, by the account that its user trades for and the live order that it names. It is
/// a call of its own: most requests are Enters, and `put_granted` has those.
#[inline(never)]
fn put_granted_apart(
    moves: &mut Move,
    policy: &Policy,
    left: &RecordData,
    a: &Asked,
    near: usize,
    known: &Facts,
)
    ensures { moves.new ≡ granted_move
        policy.now left.now a.now known.now.account known.now.target_order a.now.request }
{
    match &a.request {
        Request::Login(_) => *moves = Move::PutsOn(a.user, Some(a.line)),
        Request::Logout => *moves = Move::PutsOn(a.user, None),
        Request::Unreadable(_) => *moves = Move::Nothing,
        Request::Enter(m) => put_enter(moves, policy, left, a.user, known.account, near, m),
        Request::Replace(m) => put_replace(moves, left, &known.target_order, m),
        Request::Cancel(m) => put_cancel(moves, &known.target_order, m.shares),
        Request::Command(c) => *moves = Move::Commands(a.user, *c),
    }
}

/// Puts there what a granted request does.
#[inline(always)]
fn put_granted(
    moves: &mut Move,
    policy: &Policy,
    left: &RecordData,
    a: &Asked,
    near: usize,
    known: &Facts,
)
    ensures { moves.new ≡ granted_move
        policy.now left.now a.now known.now.account known.now.target_order a.now.request }
{
    match &a.request {
        Request::Enter(m) => put_enter(moves, policy, left, a.user, known.account, near, m),
        _ => put_granted_apart(moves, policy, left, a, near, known),
    }
}

/// Puts there that the request was denied by this rule.
#[inline(never)]
fn put_denial(moves: &mut Move, a: &Asked, rule: RuleName)
    ensures { moves.new ≡ Denies a.now rule }
{
    *moves = Move::Denies(*a, rule);
}

/// What the record of a matching step does.
pub(crate) fn matched_move(given: Verdict) -> Move
    ensures { (policy : PolicyData) (w : World) (left : RecordData) (handed : ℕ)
        → result ≡ move_by policy w left given (steps.Matching handed) }
{
    match given {
        Verdict::Filled(f) => Move::Fills(f),
        Verdict::Rested(number) => Move::Rests(number),
        Verdict::Expired(number) => Move::Expires(number),
        Verdict::Granted | Verdict::Denied(_) => Move::Nothing,
    }
}

impl Gate {
    /// Puts there what the record of a request does, by what the rules asked of the records. A value that is returned would
    /// be copied from place to place on the way.
    #[inline(never)]
    pub(crate) fn put_asked_move(
        &self,
        moves: &mut Move,
        a: &Asked,
        near: Near,
        left: &RecordData,
        known: &Facts,
    )
        requires asks { left.now.step ≡ steps.Asked a.now }
        requires account { known.now.account ≡ account_of self.now.policy a.now.user }
        requires named { known.now.target_order ≡ order_asked self.now a.now }
        ensures does { moves.new ≡ done_by self.now left.now }
    {
        match left.verdict {
            Verdict::Granted => put_granted(moves, &self.policy, left, a, near.account, known),
            Verdict::Denied(rule) => put_denial(moves, a, rule),
            Verdict::Filled(f) => *moves = Move::Fills(f),
            Verdict::Rested(number) => *moves = Move::Rests(number),
            Verdict::Expired(number) => *moves = Move::Expires(number),
        }
    }
}
