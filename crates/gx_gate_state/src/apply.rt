//! What each kind of request does to the state.
//!
//! Each function begins with the one call that can be refused, if it makes one; nothing has changed
//! then. What follows takes no memory: the slots for reports were reserved before.

ghost use Rattle.std.specs.Prelude.{◌≡◌, IsOk, OnOk, OnErr};
ghost use Rattle.gx_history.specs.declared.moves.Move.TheVariants as moves;
ghost use Rattle.gx_matching.specs.Changes.{cut_from};
ghost use Rattle.gx_gate_state.specs.State.{AreAfter, AreBefore, IsNext, IsRequestOf, IsReserved, IsNeverRefused, HaveReservedAfter, HaveReservedBefore, KeepRoom};

use crate::commands::apply_command;
use crate::next_record::NextRecord;
use crate::reports::{accepted, canceled, replaced, reports_of_denial, tell};
use crate::reserve::reserve_reports;
use crate::state::GateState;
use gx_history::live_order::LiveOrder;
use gx_history::moves::Move;
use gx_history::record::Asked;
use gx_ouch::CancelReason;
use gx_policy::RuleName;
use gx_units::OutOfMemory;

/// A denial: it uses the token and is told to who asked, where its rule is one whose denials are
/// answered.
fn apply_denial(
    state: &mut GateState,
    next: NextRecord<'_>,
    a: &Asked,
    rule: RuleName,
) -> Result<(), OutOfMemory>
    requires takes { IsNext next state.old }
    requires places { IsReserved next state.old }
    requires denies { next.moves.now ≡ moves.Denies a.now rule }
    ensures ok { OnOk result (AreAfter next.entry state.new) }
    ensures err { OnErr result (AreBefore next.entry state.new) }
    ensures room { KeepRoom state.old.streams state.new.streams }
{
    state.orders.deny(a, rule)?;
    let message = reports_of_denial(next.policy, next.data, rule, &a.request);
    tell(
        &mut state.streams,
        a.user,
        next.near.user,
        next.data.moment,
        message,
    );
    state.status.apply(next.moves, next.data.moment);
    Ok(())
}

/// An Enter: its order is the last of those that wait, the ledger counts it, and its user is told.
fn apply_enter(
    state: &mut GateState,
    next: NextRecord<'_>,
    new: &LiveOrder,
) -> Result<(), OutOfMemory>
    requires takes { IsNext next state.old }
    requires places { IsReserved next state.old }
    requires adds { next.moves.now ≡ moves.Adds new.now }
    ensures ok { OnOk result (AreAfter next.entry state.new) }
    ensures err { OnErr result (AreBefore next.entry state.new) }
    ensures room { KeepRoom state.old.streams state.new.streams }
{
    state.orders.enter(*new, next.near)?;
    state.ledger.accept(new, next.near, next.data.moment, false);
    let message = accepted(new);
    tell(
        &mut state.streams,
        new.user,
        next.near.user,
        next.data.moment,
        Some(message),
    );
    state.status.apply(next.moves, next.data.moment);
    Ok(())
}

/// The shares open of the order beyond another size.
fn cut_from(order: &LiveOrder, total: u32) -> u32
    ensures { result ≡ cut_from order.now total }
{
    order
        .open()
        .saturating_sub(total.saturating_sub(order.done))
}

/// A Cancel: its order has another size, the book and the ledger so many shares less of it, and its
/// user is told. An order with nothing open is gone, out of the book too.
fn apply_cancel(state: &mut GateState, next: NextRecord<'_>, cut: &LiveOrder, size: u32)
    requires takes { IsNext next state.old }
    requires places { IsReserved next state.old }
    requires sizes { next.moves.now ≡ moves.Sizes cut.now size }
    ensures after { AreAfter next.entry state.new }
    ensures room { KeepRoom state.old.streams state.new.streams }
{
    let fewer = cut_from(cut, size);
    state.orders.cut(cut.number, next.near.user, size);
    state.book.reduce(cut, next.near.stock, fewer);
    state.ledger.cut(cut, next.near, fewer);
    let message = canceled(cut, fewer, CancelReason::UserRequested);
    tell(
        &mut state.streams,
        cut.user,
        next.near.user,
        next.data.moment,
        Some(message),
    );
    state.status.apply(next.moves, next.data.moment);
}

/// A Replace: its order is the last of those that wait, the one before it has ended, the ledger
/// counts the one in place of the other, and its user is told.
fn apply_replace(
    state: &mut GateState,
    next: NextRecord<'_>,
    old: &LiveOrder,
    new: &LiveOrder,
) -> Result<(), OutOfMemory>
    requires takes { IsNext next state.old }
    requires places { IsReserved next state.old }
    requires replaces { next.moves.now ≡ moves.Replaces old.now new.now }
    ensures ok { OnOk result (AreAfter next.entry state.new) }
    ensures err { OnErr result (AreBefore next.entry state.new) }
    ensures room { KeepRoom state.old.streams state.new.streams }
{
    state.orders.enter(*new, next.near)?;
    state.orders.end(old.number, next.near.user);
    drop(state.book.remove(old, next.near.stock));
    state.ledger.close(old, next.near);
    state.ledger.accept(new, next.near, next.data.moment, true);
    let message = replaced(old, new);
    tell(
        &mut state.streams,
        old.user,
        next.near.user,
        next.data.moment,
        Some(message),
    );
    state.status.apply(next.moves, next.data.moment);
    Ok(())
}

/// What the record of a request does; an `OutOfMemory` comes before anything has changed.
fn apply_asked(state: &mut GateState, next: NextRecord<'_>, a: &Asked) -> Result<(), OutOfMemory>
    requires takes { IsNext next state.old }
    requires asks { IsRequestOf a.now next }
    requires places { IsReserved next state.old }
    ensures ok { OnOk result (AreAfter next.entry state.new) }
    ensures err { OnErr result (AreBefore next.entry state.new) }
    ensures room { KeepRoom state.old.streams state.new.streams }
    ensures sure { IsNeverRefused a.now next.entry → IsOk result }
{
    match next.moves {
        Move::Denies(a, rule) => apply_denial(state, next, a, *rule),
        Move::PutsOn(_, _) => {
            state.status.apply(next.moves, next.data.moment);
            Ok(())
        }
        Move::Adds(new) => apply_enter(state, next, new),
        Move::Sizes(cut, size) => {
            apply_cancel(state, next, cut, *size);
            Ok(())
        }
        Move::Replaces(old, new) => apply_replace(state, next, old, new),
        Move::Commands(officer, c) => apply_command(state, next, *officer, c),
        _ => unreachable!(),
    }
}

/// Reserves a place for each report that the record of the request owes, does what the record does,
/// and leaves the reserved places behind it. A granted Kill or Logout is never refused.
///
/// # Errors
///
/// `OutOfMemory` where a stream, an order, an answered denial or a setting finds no memory; then
/// they are as they were, but for slots that were reserved.
pub fn apply_record(
    state: &mut GateState,
    next: NextRecord<'_>,
    a: &Asked,
) -> Result<(), OutOfMemory>
    requires takes { IsNext next state.old }
    requires asks { IsRequestOf a.now next }
    requires kept { HaveReservedBefore next state.old }
    ensures ok { OnOk result (AreAfter next.entry state.new) }
    ensures kept_after { OnOk result (HaveReservedAfter next.entry state.new) }
    ensures err { OnErr result (AreBefore next.entry state.new) }
    ensures kept_before { OnErr result (HaveReservedBefore next.entry state.new) }
    ensures sure { IsNeverRefused a.now next.entry → IsOk result }
{
    reserve_reports(state, next, a)?;
    apply_asked(state, next, a)
}
