//! Steps of a gate whose history a keeper has: each is one call of the gate, and its record is noted.

ghost use Rattle.std.specs.Prelude.{◌≡◌, ◌≢◌, ◌↔◌, ◌+◌, ◌<◌, length, IsTrue, IfErr, IfNone, IfOk, IfSome, OnErr, OnOk, Some, None, is_some};
ghost use Rattle.gx_history.specs.{InForce.line_of, Showing.{has_its_first, is_askable}, Verdicts.IsLegal};
ghost use Rattle.gx_access_gate.specs.{Matches.{matching_of, with_match}, Gates.left_by, Steps.{next_of, with_record}};
ghost use Rattle.gx_pass.specs.{Rules.Has, Views.{line_view, keeper_view, without_line}};
ghost use Rattle.gx_door.specs.declared.fault.PullFault.TheVariants as pull_faults;
ghost use Rattle.gx_door.specs.{Acts.{asked_on, IsPulled, IsToldFull, MayBeRefused}, Endings.{ended_by, sums_of}, Matching.{AddsMatchingSteps, EndsSo}};

use crate::counting::CountingKeeper;
use crate::ending::{ends_of, if_granted};
use gx_access_gate::{AccessGate, Outcome, Pulled, StepFault, record_of, record_of_match};
use gx_door::{MatchEnd, Matched, PullFault, Turned};
use gx_history::record::{Asked, Request};
use gx_pass::{Entered, GateName, Pass};
use gx_records::ShowsState;
use gx_units::{Moment, UserName};
use std::sync::ledger::Share;

/// The most reports of one pull.
const MOST_PULLED: u64 = 256;

/// A request on a line. The user's name is taken in upper case.
pub fn asked_on(line: u16, user: UserName, request: Request, handed: Moment) -> Asked
    requires line { 0 < line }
    requires first { IsTrue (has_its_first request) }
    ensures asked { result ≡ asked_on line user request handed }
    ensures askable { IsTrue (is_askable result) }
{
    Asked {
        line,
        user: user.folded(),
        request,
        handed,
    }
}

/// Makes the request's step. The keeper, where its line is entered, notes the record, and it is counted in the share.
///
/// A granted Kill or Logout is never refused.
#[tactic(auto, using(crate::proofs::Refused_call::is_no_granted_end, crate::proofs::Refused_call::is_told_full))]
pub fn step_and_note<G: AccessGate, N: GateName>(
    gate: &mut G,
    keeper: &mut CountingKeeper<N>,
    share: &mut Share<N>,
    asked: Asked,
) -> Result<Outcome, StepFault>
    requires part { 0 < share.old.parts }
    requires askable { IsTrue (is_askable asked) }
    requires line { Has keeper.old.entered asked.line }
    requires history { keeper.old.list ≡ (G.state gate.old).records }
    ensures policy { (G.state gate.new).policy ≡ (G.state gate.old).policy }
    ensures done { IfOk result
        (λ o. (G.state gate.new).records ≡ with_record (G.state gate.old) asked o) }
    ensures next { IfOk result (λ o. next_of (G.state gate.old) asked ≡ Some (left_by asked o)) }
    ensures refused { OnErr result (G.state gate.new ≡ G.state gate.old) }
    ensures never_refused { OnErr result (MayBeRefused (G.state gate.new) asked) }
    ensures full { IfErr result (IsToldFull (G.state gate.new)) }
    ensures keeper { keeper.new
        ≡ keeper_view (G.state gate.new).records keeper.old.entered keeper.old.issued }
    ensures adds_one { OnOk result (share.new.amount ≡ share.old.amount + 1) }
    ensures adds_none { OnErr result (share.new.amount ≡ share.old.amount) }
    ensures parts { share.new.parts ≡ share.old.parts }
{
    // that there is room for one more record
    gate.length();
    let outcome = gate.step(asked)?;
    keeper.note(share, record_of(&asked, outcome));
    Ok(outcome)
}

/// Makes a matching step, if an order waits. The keeper notes the record, if there is one, and it is counted in the share.
#[tactic(auto, using(crate::proofs::Match_idle::none_is_next))]
pub fn match_and_note<G: AccessGate, N: GateName>(
    gate: &mut G,
    keeper: &mut CountingKeeper<N>,
    share: &mut Share<N>,
    handed: Moment,
) -> Result<Option<Outcome>, StepFault>
    requires part { 0 < share.old.parts }
    requires history { keeper.old.list ≡ (G.state gate.old).records }
    ensures policy { (G.state gate.new).policy ≡ (G.state gate.old).policy }
    ensures found { IfOk result
        (λ found. G.state gate.new ≡ with_match (G.state gate.old) handed found) }
    ensures idle { IfOk result (λ found. IfNone found (matching_of (G.state gate.new) ≡ None)) }
    ensures waits { OnErr result (IsTrue (is_some (matching_of (G.state gate.new)))) }
    ensures refused { OnErr result (G.state gate.new ≡ G.state gate.old) }
    ensures full { IfErr result (IsToldFull (G.state gate.new)) }
    ensures keeper { keeper.new
        ≡ keeper_view (G.state gate.new).records keeper.old.entered keeper.old.issued }
    ensures adds_one { IfOk result (λ found. IfSome found (λ _.
        share.new.amount ≡ share.old.amount + 1)) }
    ensures adds_none_idle { IfOk result (λ found. IfNone found
        (share.new.amount ≡ share.old.amount)) }
    ensures adds_none { OnErr result (share.new.amount ≡ share.old.amount) }
    ensures parts { share.new.parts ≡ share.old.parts }
{
    // that there is room for one more record
    gate.length();
    let Some(outcome) = gate.match_one(handed)? else {
        return Ok(None);
    };
    keeper.note(share, record_of_match(handed, outcome));
    Ok(Some(outcome))
}

/// Makes matching steps, until no order waits, one is refused, or so many were made. The keeper notes their records, which
/// are of no line, and they are counted in the share.
#[tactic(auto, using(crate::proofs::Match_next::none_made, crate::proofs::Match_next::one_more, crate::proofs::Match_next::no_more))]
pub fn match_some<G: AccessGate, N: GateName>(
    gate: &mut G,
    keeper: &mut CountingKeeper<N>,
    share: &mut Share<N>,
    handed: Moment,
    most: u64,
) -> Matched
    requires part { 0 < share.old.parts }
    requires history { keeper.old.list ≡ (G.state gate.old).records }
    ensures policy { (G.state gate.new).policy ≡ (G.state gate.old).policy }
    ensures made { AddsMatchingSteps handed result.made
        (G.state gate.old).records (G.state gate.new).records }
    ensures ended { EndsSo result.end (G.state gate.new) result.made most }
    ensures keeper { keeper.new
        ≡ keeper_view (G.state gate.new).records keeper.old.entered keeper.old.issued }
    ensures adds { share.new.amount ≡ share.old.amount + result.made }
    ensures parts { share.new.parts ≡ share.old.parts }
{
    let mut made = 0;
    while made < most {
        match match_and_note(gate, keeper, share, handed) {
            Ok(Some(_)) => made += 1,
            Ok(None) => return Matched {
                made,
                end: MatchEnd::Idle,
            },
            Err(fault) => return Matched {
                made,
                end: MatchEnd::Refused(fault),
            },
        }
    }
    Matched {
        made,
        end: MatchEnd::Enough,
    }
}

/// Makes the request's step, and matching steps behind it, none where it is refused. The keeper, where its line is entered,
/// notes the records, and they are counted in the share. Tells what the request's own record ended, which is counted in front of
/// it: behind it these orders are gone.
#[tactic(auto, using(crate::proofs::Command_call::told_so))]
pub fn turn<G: ShowsState, N: GateName>(
    gate: &mut G,
    keeper: &mut CountingKeeper<N>,
    share: &mut Share<N>,
    asked: Asked,
    most: u64,
) -> Result<Turned, StepFault>
    requires part { 0 < share.old.parts }
    requires askable { IsTrue (is_askable asked) }
    requires line { Has keeper.old.entered asked.line }
    requires history { keeper.old.list ≡ (G.state gate.old).records }
    ensures policy { (G.state gate.new).policy ≡ (G.state gate.old).policy }
    ensures done { IfOk result (λ t. AddsMatchingSteps asked.handed t.matched.made
        (with_record (G.state gate.old) asked t.outcome) (G.state gate.new).records) }
    ensures ends { IfOk result (λ t. t.ended ≡ sums_of (ended_by
        (G.state gate.old).policy (G.state gate.old).records (left_by asked t.outcome))) }
    ensures ended { IfOk result (λ t.
        EndsSo t.matched.end (G.state gate.new) t.matched.made most) }
    ensures refused { OnErr result (G.state gate.new ≡ G.state gate.old) }
    ensures never_refused { OnErr result (MayBeRefused (G.state gate.new) asked) }
    ensures full { IfErr result (IsToldFull (G.state gate.new)) }
    ensures keeper { keeper.new
        ≡ keeper_view (G.state gate.new).records keeper.old.entered keeper.old.issued }
    ensures adds { IfOk result (λ t.
        share.new.amount ≡ share.old.amount + 1 + t.matched.made) }
    ensures adds_none { OnErr result (share.new.amount ≡ share.old.amount) }
    ensures parts { share.new.parts ≡ share.old.parts }
{
    let ends = ends_of(gate, &asked);
    let outcome = step_and_note(gate, keeper, share, asked)?;
    let ended = if_granted(ends, &outcome.verdict);
    let matched = match_some(gate, keeper, share, asked.handed, most);
    Ok(Turned {
        outcome,
        ended,
        matched,
    })
}

/// The reports of a user who is logged in on the line, from this number on, at most so many.
pub fn pull<G: AccessGate>(
    gate: &G,
    line: u16,
    user: UserName,
    from: u64,
    most: u64,
) -> Result<Pulled, PullFault>
    ensures on { OnOk result (line_of (G.state gate.now).records user ≡ Some line) }
    ensures not_on { IfErr result (λ e.
        e ≡ pull_faults.NotOn ↔ line_of (G.state gate.now).records user ≢ Some line) }
    ensures pulled { IfOk result (IsPulled (G.state gate.now) user from most) }
{
    if gate.on(user) != Some(line) {
        return Err(PullFault::NotOn);
    }
    Ok(gate.reports(user, from, most.min(MOST_PULLED))?)
}

/// Lets go a pass that was taken in. It has met all records of the gate, which are legal.
pub fn leave<G: AccessGate, N: GateName>(
    gate: &G,
    keeper: &mut CountingKeeper<N>,
    entered: Entered<N>,
) -> Pass<N>
    requires entered { Has keeper.old.entered entered }
    requires history { keeper.old.list ≡ (G.state gate.now).records }
    ensures pass { result
        ≡ line_view entered (G.state gate.now).records (length (G.state gate.now).records) }
    ensures legal { IsLegal (G.state gate.now).policy (G.state gate.now).records }
    ensures keeper { keeper.new
        ≡ keeper_view (G.state gate.now).records
        (without_line entered keeper.old.entered) keeper.old.issued }
{
    gate.is_legal();
    keeper.leave(entered)
}
