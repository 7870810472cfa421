//! What each matching step does to the state.
//!
//! The one call that can be refused comes first; nothing has changed then. What follows takes no
//! memory.

ghost use Rattle.std.specs.Prelude.{◌≡◌, is_some, IsTrue, OnOk, OnErr, Some};
ghost use Rattle.gx_history.specs.declared.moves.Move.TheVariants as moves;
ghost use Rattle.gx_orders.specs.LiveOrders.{live_numbered};
ghost use Rattle.gx_gate_state.specs.{State.{AreAfter, AreBefore, IsMatch, IsNext, IsReserved, IsReservedWhole, HaveReservedAfter, HaveReservedBefore}, Matching.told_side};

use crate::listed::place_of;
use crate::next_record::NextRecord;
use crate::reports::{canceled, tell};
use crate::reserve::reserve_for_expiry;
use crate::state::GateState;
use gx_history::live_order::LiveOrder;
use gx_history::moves::Move;
use gx_history::record::Fill;
use gx_index::Near;
use gx_orders::Orders;
use gx_ouch::CancelReason;
use gx_policy::Policy;
use gx_streams::fill::{FillSide, ReportedFill};
use gx_units::OutOfMemory;

/// One side of a fill, as its user and the readers of its account are told of it. The account is looked for at this place
/// first.
fn side_of(policy: &Policy, order: &LiveOrder, near: usize) -> FillSide
    ensures { result ≡ told_side policy.now order.now }
{
    FillSide {
        user: order.user,
        token: order.token,
        account: order.account,
        account_place: place_of(policy, order.account, near),
        side: order.terms.side,
    }
}

/// The live order of this number.
fn order_numbered(orders: &Orders, number: u64) -> LiveOrder
    requires lives { IsTrue (is_some (live_numbered orders.now.live number)) }
    ensures found { live_numbered orders.now.live number ≡ Some result }
{
    let Some(order) = orders.numbered(number) else {
        unreachable!();
    };
    order
}

/// A fill: both users are told, and each reader of either account; both orders execute its shares,
/// which are taken from the best of the book on the side of the one that rested, and the ledger
/// counts it.
fn apply_fill(state: &mut GateState, next: NextRecord<'_>, f: Fill) -> Result<(), OutOfMemory>
    requires takes { IsNext next state.old }
    requires fills { next.moves.now ≡ moves.Fills f }
    requires kept { HaveReservedBefore next state.old }
    ensures ok { OnOk result (AreAfter next.entry state.new) }
    ensures kept_after { OnOk result (HaveReservedAfter next.entry state.new) }
    ensures err { OnErr result (AreBefore next.entry state.new) }
    ensures kept_before { OnErr result (HaveReservedBefore next.entry state.new) }
{
    // What this ensures: each account that someone trades for is in the policy, at most 64 of them.
    let _ = next.policy.rules();
    let taker = order_numbered(&state.orders, f.taker);
    let maker = order_numbered(&state.orders, f.maker);
    let near_taker = Near {
        stock: next.near.stock,
        ..state.people.near(taker.user)
    };
    let near_maker = Near {
        stock: next.near.stock,
        ..state.people.near(maker.user)
    };
    state.streams.append_fill(
        ReportedFill {
            match_number: next.data.number,
            moment: next.data.moment,
            shares: f.shares,
            price: f.price,
            taker: side_of(next.policy, &taker, near_taker.account),
            maker: side_of(next.policy, &maker, near_maker.account),
        },
        near_taker.user,
        near_maker.user,
    )?;
    state.orders.fill(f.taker, near_taker.user, f.shares);
    state.orders.fill(f.maker, near_maker.user, f.shares);
    state.book.take_from_best(
        maker.terms.stock,
        near_maker.stock,
        maker.terms.side,
        f.shares,
    );
    state
        .ledger
        .fill(&taker, near_taker, &maker, near_maker, f.shares, f.price);
    state.status.apply(next.moves, next.data.moment);
    Ok(())
}

/// An order that meets nothing and comes to rest: it stands in the book, and waits no more.
fn apply_rest(state: &mut GateState, next: NextRecord<'_>, number: u64) -> Result<(), OutOfMemory>
    requires takes { IsNext next state.old }
    requires rests { next.moves.now ≡ moves.Rests number }
    requires kept { HaveReservedBefore next state.old }
    ensures ok { OnOk result (AreAfter next.entry state.new) }
    ensures kept_after { OnOk result (HaveReservedAfter next.entry state.new) }
    ensures err { OnErr result (AreBefore next.entry state.new) }
    ensures kept_before { OnErr result (HaveReservedBefore next.entry state.new) }
{
    let order = order_numbered(&state.orders, number);
    state.book.rest(&order, next.near.stock)?;
    state.orders.rest(number);
    state.status.apply(next.moves, next.data.moment);
    Ok(())
}

/// An order that meets nothing and may not rest: it ends, is counted no more, and its user is told
/// what was open, in a reserved slot.
fn end_order(state: &mut GateState, next: NextRecord<'_>, order: &LiveOrder)
    requires takes { IsNext next state.old }
    requires places { IsReserved next state.old }
    requires expires { next.moves.now ≡ moves.Expires order.now.number }
    requires lives { live_numbered state.old.orders.live order.now.number ≡ Some order.now }
    requires whole { IsReservedWhole next state.old }
    ensures after { AreAfter next.entry state.new }
    ensures kept_after { HaveReservedAfter next.entry state.new }
{
    state.orders.end(order.number, next.near.user);
    state.ledger.close(order, next.near);
    let message = canceled(order, order.open(), CancelReason::ImmediateOrCancel);
    tell(
        &mut state.streams,
        order.user,
        next.near.user,
        next.data.moment,
        Some(message),
    );
    state.status.apply(next.moves, next.data.moment);
}

/// The end of an order that meets nothing and may not rest, with a place for its report.
fn apply_expiry(state: &mut GateState, next: NextRecord<'_>, number: u64) -> Result<(), OutOfMemory>
    requires takes { IsNext next state.old }
    requires expires { next.moves.now ≡ moves.Expires number }
    requires kept { HaveReservedBefore next state.old }
    ensures ok { OnOk result (AreAfter next.entry state.new) }
    ensures kept_after { OnOk result (HaveReservedAfter next.entry state.new) }
    ensures err { OnErr result (AreBefore next.entry state.new) }
    ensures kept_before { OnErr result (HaveReservedBefore next.entry state.new) }
{
    let order = order_numbered(&state.orders, number);
    reserve_for_expiry(state, next, &order)?;
    end_order(state, next, &order);
    Ok(())
}

/// Does what the record of a matching step does, and leaves the reserved places
/// behind it.
///
/// # Errors
///
/// `OutOfMemory` where a stream, or the book at a rest, finds no memory; then they are as they
/// were, but for a reserved slot.
pub fn apply_match(state: &mut GateState, next: NextRecord<'_>) -> Result<(), OutOfMemory>
    requires takes { IsNext next state.old }
    requires matches { IsMatch next }
    requires kept { HaveReservedBefore next state.old }
    ensures ok { OnOk result (AreAfter next.entry state.new) }
    ensures kept_after { OnOk result (HaveReservedAfter next.entry state.new) }
    ensures err { OnErr result (AreBefore next.entry state.new) }
    ensures kept_before { OnErr result (HaveReservedBefore next.entry state.new) }
{
    match next.moves {
        Move::Fills(f) => apply_fill(state, next, *f),
        Move::Rests(number) => apply_rest(state, next, *number),
        Move::Expires(number) => apply_expiry(state, next, *number),
        _ => unreachable!(),
    }
}
