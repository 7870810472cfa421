//! The built-in rules in the written order, before and behind those of the file: each kind of
//! request is asked about the rules that can forbid it.

ghost use Rattle.std.specs.Prelude.{◌≡◌, find};
ghost use Rattle.gx_history.specs.declared.record.Request.TheVariants as requests;
ghost use Rattle.gx_policy.specs.RuleNames.{rules_before, rules_behind};
ghost use Rattle.gx_history.specs.Rules.{forbids};

use crate::built_in::is_forbidden;
use crate::terms::{are_bad_shares, is_bad_display, is_bad_price, is_bad_side, is_bad_time};
use gx_history::facts::Facts;
use gx_history::record::Request;
use gx_ouch::{EnterOrder, ReplaceOrder};
use gx_policy::{BUILT_IN, RuleName};

/// How many built-in rules stand before those of the file.
const RULES_BEFORE: usize = 21;

/// Those of them that can forbid a Login.
const RULES_OF_LOGIN: [RuleName; 4] = [RuleName::L1, RuleName::L2, RuleName::L3, RuleName::G2];

/// Those that can forbid a Logout or a command.
const RULES_OF_ALL: [RuleName; 2] = [RuleName::G1, RuleName::G2];

/// Those that can forbid a Cancel.
const RULES_OF_CANCEL: [RuleName; 4] = [RuleName::G1, RuleName::G2, RuleName::I2, RuleName::I3];

fn first_of(names: &[RuleName], facts: &Facts, request: &Request) -> Option<RuleName>
    ensures { result ≡ find (λ name. forbids name facts.now request.now) names.now }
{
    names
        .iter()
        .copied()
        .find(|name| is_forbidden(*name, facts, request))
}

#[tactic(auto, unfolding(gx_policy::specs::RuleNames::rules_before))]
#[inline(always)]
fn first_of_enter(facts: &Facts, m: &EnterOrder) -> Option<RuleName>
    ensures { result
        ≡ find (λ name. forbids name facts.now (requests.Enter m.now)) rules_before }
{
    if !facts.is_on_this_line {
        return Some(RuleName::G1);
    }
    if !facts.role_fits {
        return Some(RuleName::G2);
    }
    if facts.token_is_used {
        return Some(RuleName::I1);
    }
    if facts.day_is_closed {
        return Some(RuleName::P1);
    }
    if facts.account_is_killed {
        return Some(RuleName::P2);
    }
    if !facts.firm_fits {
        return Some(RuleName::P3);
    }
    if !facts.stock_is_listed {
        return Some(RuleName::P4);
    }
    if are_bad_shares(m.shares) {
        return Some(RuleName::P5);
    }
    if is_bad_price(m.price) {
        return Some(RuleName::P6);
    }
    if is_bad_display(m.display) {
        return Some(RuleName::P7);
    }
    if is_bad_time(m.time_in_force) {
        return Some(RuleName::P8);
    }
    if m.minimum_quantity != 0 {
        return Some(RuleName::P9);
    }
    if m.cross_type != b'N' {
        return Some(RuleName::P10);
    }
    if is_bad_side(m.side) {
        return Some(RuleName::P11);
    }
    None
}

#[tactic(auto, unfolding(gx_policy::specs::RuleNames::rules_before))]
fn first_of_replace(facts: &Facts, m: &ReplaceOrder) -> Option<RuleName>
    ensures { result
        ≡ find (λ name. forbids name facts.now (requests.Replace m.now)) rules_before }
{
    if !facts.is_on_this_line {
        return Some(RuleName::G1);
    }
    if !facts.role_fits {
        return Some(RuleName::G2);
    }
    if facts.token_is_used {
        return Some(RuleName::I1);
    }
    let Some(order) = facts.target_order else {
        return Some(RuleName::I2);
    };
    if facts.day_is_closed {
        return Some(RuleName::P1);
    }
    if facts.account_is_killed {
        return Some(RuleName::P2);
    }
    if are_bad_shares(m.shares) {
        return Some(RuleName::P5);
    }
    if is_bad_price(m.price) {
        return Some(RuleName::P6);
    }
    if is_bad_display(m.display) {
        return Some(RuleName::P7);
    }
    if is_bad_time(m.time_in_force) {
        return Some(RuleName::P8);
    }
    if m.minimum_quantity != 0 {
        return Some(RuleName::P9);
    }
    if m.shares <= order.done {
        return Some(RuleName::P12);
    }
    None
}

/// The first of the built-in rules before those of the file that forbids.
#[tactic(auto, unfolding(gx_policy::specs::RuleNames::rules_before))]
#[inline(always)]
pub fn first_before(facts: &Facts, request: &Request) -> Option<RuleName>
    ensures { result ≡ find (λ name. forbids name facts.now request.now) rules_before }
{
    match request {
        Request::Enter(m) => first_of_enter(facts, m),
        Request::Replace(m) => first_of_replace(facts, m),
        Request::Cancel(_) => first_of(&RULES_OF_CANCEL, facts, request),
        Request::Login(_) => first_of(&RULES_OF_LOGIN, facts, request),
        Request::Logout => first_of(&RULES_OF_ALL, facts, request),
        Request::Command(_) => first_of(&RULES_OF_ALL, facts, request),
        Request::Unreadable(_) => first_of(&BUILT_IN[..RULES_BEFORE], facts, request),
    }
}

/// The first of the built-in rules behind those of the file that forbids: they are for commands.
#[tactic(auto, unfolding(gx_policy::specs::RuleNames::rules_behind))]
pub fn first_behind(facts: &Facts, request: &Request) -> Option<RuleName>
    ensures { result ≡ find (λ name. forbids name facts.now request.now) rules_behind }
{
    match request {
        Request::Command(_) => first_of(&BUILT_IN[RULES_BEFORE..], facts, request),
        _ => None,
    }
}
