//! Every place that a record can want, made before anything changes.
//!
//! For each user places are reserved beforehand: one for the end of each of his live orders, and one for
//! the answer to each Kill that he may ask for. So a granted Kill, and a granted Logout, make none.

ghost use Rattle.std.specs.Prelude.{◌≡◌, ◌+◌, ◌<◌, ◌≤◌, ◌^◌, length, IsOk, IsTrue, OnOk, Some};
ghost use Rattle.gx_history.specs.declared.moves.Move.TheVariants as moves;
ghost use Rattle.gx_history.specs.Verdicts.{day_limit};
ghost use Rattle.gx_orders.specs.LiveOrders.{live_numbered};
ghost use Rattle.gx_streams.specs.{Streams.has_own_stream, Telling.shown_streams};
ghost use Rattle.gx_gate_state.specs.State.{count_of_user, enough_of, kills_at_most, AreBefore, HasEnough, HasReserved, HaveEnough, HaveNoFewer, IsNext, IsRequestOf, IsReserved, IsReservedWhole, IsNeverRefused, HaveReservedBefore, KnowTheSame};

use crate::next_record::NextRecord;
use crate::state::GateState;
use gx_history::live_order::LiveOrder;
use gx_history::moves::Move;
use gx_history::record::Asked;
use gx_history::reserved::{is_never_refused, may_notify_all_users};
use gx_orders::Orders;
use gx_people::People;
use gx_policy::Policy;
use gx_streams::Streams;
use gx_units::{OutOfMemory, UserName};

/// Reserves at least so many places for the user, if he is known and no reader. Here and below, he is
/// looked for at this place of the policy's users first.
fn reserve_for_user(
    streams: &mut Streams,
    user: UserName,
    near: usize,
    places: usize,
) -> Result<(), OutOfMemory>
    ensures shown { shown_streams streams.new ≡ shown_streams streams.old }
    ensures known { KnowTheSame streams.old streams.new }
    ensures readers { streams.new.readers ≡ streams.old.readers }
    ensures more { HaveNoFewer streams.old streams.new }
    ensures places { OnOk result (HasReserved user places streams.new) }
{
    if !streams.is_told(user) {
        return Ok(());
    }
    streams.reserve(user, near, places)?;
    Ok(())
}

/// The most accounts that there can be for the user to kill: none, unless he is an officer.
fn most_kills(people: &People, policy: &Policy, user: UserName, near: usize) -> usize
    ensures most { result ≡ kills_at_most people.now policy.now user }
    ensures few { result < 2 ^ 63 }
{
    if people.is_officer(user, near) {
        policy.accounts().len()
    } else {
        0
    }
}

/// How many places are enough for the user, whatever one record tells him and leaves to be kept for
/// him: two more than one for each of his live orders and, if he is an officer, for each account.
fn enough_reserved(
    orders: &Orders,
    people: &People,
    policy: &Policy,
    user: UserName,
    near: usize,
) -> usize
    requires few { length orders.now.live ≤ day_limit }
    ensures { result ≡ enough_of orders.now.live people.now policy.now user }
{
    orders.count_of(user, near) + most_kills(people, policy, user, near) + 2
}

/// Reserves as many places for the user, if he is known and no reader.
fn reserve_enough(
    streams: &mut Streams,
    orders: &Orders,
    people: &People,
    policy: &Policy,
    user: UserName,
    near: usize,
) -> Result<(), OutOfMemory>
    requires few { length orders.now.live ≤ day_limit }
    ensures shown { shown_streams streams.new ≡ shown_streams streams.old }
    ensures readers { streams.new.readers ≡ streams.old.readers }
    ensures known { KnowTheSame streams.old streams.new }
    ensures more { HaveNoFewer streams.old streams.new }
    ensures places { OnOk result
        (HasEnough orders.now.live people.now policy.now streams.new user) }
{
    reserve_for_user(
        streams,
        user,
        near,
        enough_reserved(orders, people, policy, user, near),
    )
}

/// Reserves as many places for a user who trades: there is no account for him to kill.
fn reserve_enough_for_trader(
    streams: &mut Streams,
    orders: &Orders,
    user: UserName,
    near: usize,
) -> Result<(), OutOfMemory>
    requires few { length orders.now.live ≤ day_limit }
    requires told { IsTrue (has_own_stream streams.old user) }
    ensures shown { shown_streams streams.new ≡ shown_streams streams.old }
    ensures readers { streams.new.readers ≡ streams.old.readers }
    ensures known { KnowTheSame streams.old streams.new }
    ensures more { HaveNoFewer streams.old streams.new }
    ensures places { OnOk result
        (HasReserved user (count_of_user orders.now.live user + 2) streams.new) }
{
    streams.reserve(user, near, orders.count_of(user, near) + 2)?;
    Ok(())
}

/// Reserves as many places for each user of the policy.
///
/// # Errors
///
/// `OutOfMemory` where memory was refused; then some users may have theirs.
pub fn reserve_enough_for_all(
    streams: &mut Streams,
    orders: &Orders,
    people: &People,
    policy: &Policy,
) -> Result<(), OutOfMemory>
    requires few { length orders.now.live ≤ day_limit }
    ensures shown { shown_streams streams.new ≡ shown_streams streams.old }
    ensures readers { streams.new.readers ≡ streams.old.readers }
    ensures known { KnowTheSame streams.old streams.new }
    ensures more { HaveNoFewer streams.old streams.new }
    ensures places { OnOk result
        (HaveEnough orders.now.live people.now policy.now streams.new policy.now.users) }
{
    for user in policy.users() {
        reserve_enough(streams, orders, people, policy, user.name, 0)?;
    }
    Ok(())
}

/// Reserves a place for each report that the record of the request owes, and those that are to be reserved
/// behind it. A granted Kill or Logout finds its own.
///
/// # Errors
///
/// `OutOfMemory`: some stream could not grow, and nobody was told anything.
pub fn reserve_reports(
    state: &mut GateState,
    next: NextRecord<'_>,
    a: &Asked,
) -> Result<(), OutOfMemory>
    requires takes { IsNext next state.old }
    requires asks { IsRequestOf a.now next }
    requires kept { HaveReservedBefore next state.old }
    ensures before { AreBefore next.entry state.new }
    ensures kept { HaveReservedBefore next.entry state.new }
    ensures places { OnOk result (IsReserved next.entry state.new) }
    ensures whole { OnOk result (IsReservedWhole next.entry state.new) }
    ensures sure { IsNeverRefused a.now next.entry → IsOk result }
{
    let given = next.data.verdict;
    let policy = next.policy;
    if is_never_refused(&a.request, given) {
        return Ok(());
    }
    if may_notify_all_users(&a.request, given) {
        return reserve_enough_for_all(&mut state.streams, &state.orders, &state.people, policy);
    }
    if let Move::Adds(_) = next.moves {
        return reserve_enough_for_trader(&mut state.streams, &state.orders, a.user, next.near.user);
    }
    reserve_enough(
        &mut state.streams,
        &state.orders,
        &state.people,
        policy,
        a.user,
        next.near.user,
    )
}

/// Reserves a place for the report of an order that expires, and those that are to be reserved behind it.
///
/// # Errors
///
/// `OutOfMemory`: some stream could not grow, and nobody was told anything.
pub fn reserve_for_expiry(
    state: &mut GateState,
    next: NextRecord<'_>,
    order: &LiveOrder,
) -> Result<(), OutOfMemory>
    requires takes { IsNext next state.old }
    requires expires { next.moves.now ≡ moves.Expires order.now.number }
    requires lives { live_numbered state.old.orders.live order.now.number ≡ Some order.now }
    requires kept { HaveReservedBefore next state.old }
    ensures before { AreBefore next.entry state.new }
    ensures same { state.new.orders ≡ state.old.orders }
    ensures kept { HaveReservedBefore next.entry state.new }
    ensures places { OnOk result (IsReserved next.entry state.new) }
    ensures whole { OnOk result (IsReservedWhole next.entry state.new) }
{
    reserve_enough(
        &mut state.streams,
        &state.orders,
        &state.people,
        next.policy,
        order.user,
        next.near.user,
    )
}
