//! What the limits of the policy file's rules forbid.

ghost use Rattle.std.specs.{Prelude.{◌≡◌, ◌+◌, ◌-◌, ◌+ℤ◌, ◌-ℤ◌, false, int_lt, nat_lt, pos}, Option.option_map_or};
ghost use Rattle.gx_policy.specs.People.{covers};
ghost use Rattle.gx_history.specs.Rules.{is_outside_collar, new_open};

use gx_history::facts::{Facts, GrossFigures, NetFigures, ProposedOrder};
use gx_policy::Scope;

/// Whether the price is more than `limit` ten-thousandths of the reference away from it.
pub fn is_outside_collar(limit: u64, reference: u32, price: u32) -> bool
    ensures { result ≡ is_outside_collar limit reference price }
{
    let scaled = u128::from(price) * 10_000;
    let reference = u128::from(reference);
    let limit = u128::from(limit);
    scaled > reference * (10_000 + limit) || scaled < reference * 10_000u128.saturating_sub(limit)
}

/// Whether live, done and new together, without what is replaced, pass the limit, where their sum
/// has more than 128 bits: the replaced part is taken out before anything is added.
fn is_large_above(live: u128, done: u128, new: u128, replaced: u128, limit: u64) -> bool
    ensures { result ≡ nat_lt limit (live + done + new - replaced) }
{
    let live_left = live.saturating_sub(replaced);
    let after_live = replaced.saturating_sub(live);
    let done_left = done.saturating_sub(after_live);
    let after_done = after_live.saturating_sub(done);
    let new_left = new.saturating_sub(after_done);
    match live_left.checked_add(done_left) {
        Some(both) => match both.checked_add(new_left) {
            Some(sum) => sum > u128::from(limit),
            None => true,
        },
        None => true,
    }
}

/// The same of figures of any size.
fn is_above(live: u128, done: u128, new: u128, replaced: u128, limit: u64) -> bool
    ensures { result ≡ nat_lt limit (live + done + new - replaced) }
{
    if let Some(both) = live.checked_add(done) {
        if let Some(sum) = both.checked_add(new) {
            return sum.saturating_sub(replaced) > u128::from(limit);
        }
    }
    is_large_above(live, done, new, replaced, limit)
}

/// The shares that the order would have open: what it asks for, less what its chain has executed.
pub fn new_open(w: &ProposedOrder) -> u32
    ensures { result ≡ new_open w.now }
{
    w.shares.saturating_sub(w.done)
}

/// Whether what is live, executed and new, without what is replaced, passes the limit.
pub fn is_gross_above(told: GrossFigures, new: u128, limit: u64) -> bool
    ensures { result ≡ nat_lt limit (told.live + told.done + new - told.replaced) }
{
    is_above(told.live, told.done, new, told.replaced, limit)
}

/// Whether the shares on this side, those that are live, executed and new, without what is replaced and without those
/// executed on the other side, pass the limit: right for any figures.
pub fn is_net_above(told: NetFigures, new: u128, limit: u64) -> bool
    ensures { result
        ≡ int_lt (pos limit) (told.done +ℤ pos told.live +ℤ pos new -ℤ pos told.replaced) }
{
    let done = told.done.unsigned_abs();
    if told.done >= 0 {
        return is_above(told.live, done, new, told.replaced, limit);
    }
    let live_left = told.live.saturating_sub(done);
    let after_live = done.saturating_sub(told.live);
    let new_left = new.saturating_sub(after_live);
    is_above(live_left, 0, new_left, told.replaced, limit)
}

/// Whether the request is asked for an account in the scope.
pub fn is_for_scope(scope: &Scope, facts: &Facts) -> bool
    ensures { result ≡ option_map_or (covers scope.now) facts.now.account false }
{
    facts.account.is_some_and(|account| scope.covers(account))
}
