//! What threads ask of a gate that they share.

ghost use Rattle.std.specs.Prelude.{◌≡◌, ◌≢◌, ◌↔◌, ◌+◌, ◌≤◌, length, IsTrue, IfErr, IfNone, IfOk, IfSome, OnErr, OnOk, Some, None, is_some, vec_capacity};
ghost use Rattle.gx_units.specs.Spelling.{folded_user};
ghost use Rattle.gx_history.specs.declared.record.Request.TheVariants as requests;
ghost use Rattle.gx_history.specs.{InForce.line_of, Showing.has_its_first};
ghost use Rattle.gx_policy.specs.Lists.{slice};
ghost use Rattle.gx_access_gate.specs.{Gates.{left_by, matched_by}, Matches.matching_of};
ghost use Rattle.gx_pass.specs.Views.{mine, with_told};
ghost use Rattle.gx_door.specs.declared.fault.PullFault.TheVariants as pull_faults;
ghost use Rattle.gx_door.specs.{Acts.{asked_on, gate_met, login_on, AddsOwn, EndsWith, IsLater, IsPulled, IsToldFull, LogsIn, MayBeRefused}, Callers.caller_of, Keeping.ShowsKept, Matching.{EndsSo, MatchesBehind, Turns}};

use crate::caller::Caller;
use crate::dial::Dial;
use crate::fault::PullFault;
use crate::matched::{Matched, Turned};
use gx_access_gate::{LoginAnswer, Outcome, Pulled, StepFault};
use gx_history::record::{Record, Request};
use gx_units::{Moment, OutOfMemory, Password, SessionName, UserName};
use std::sync::Wait;

/// A gate that threads share. Each call that takes a pass gives it back, with what was met.
///
/// A step is refused as one of a full day exactly where the day is full. A granted Kill or Logout is never refused: at
/// `Err` what was met is what the request was judged on, and it does not make it one.
///
/// Each record, of whatever line, is counted in the pass that it was added with: no call adds more than its clauses say.
/// Passes come from an [`Issuer`](crate::Issuer).
pub trait Door {
    ghost use Rattle.std.specs.Prelude.{ℕ};
    ghost use Rattle.gx_policy.specs.declared.policy.PolicyData.{PolicyData};
    ghost use Rattle.gx_pass.specs.declared.view.LineView.{LineView};

    /// A pass, as its holder sees it.
    type Pass: Drop;

    // What the gate judges by.
    ghost policy: { PolicyData };

    // What the pass has met.
    ghost observed: { Self.Pass → LineView };

    // How many records were added with the pass.
    ghost added: { Self.Pass → ℕ };

    // What shows that records are kept: whoever speaks of any door has it of the door alone.
    ghost Kept: { Type 0 };

    // How many of the day's first records it shows as kept.
    ghost kept: { Self.Kept → ℕ };

    /// The number of the connection that holds the pass.
    fn line_of(&self, pass: &Self::Pass) -> u16
        ensures { result ≡ (observed pass.now).line };

    /// Who asks to log in so. No step is made.
    fn caller<R: Wait>(&self, rt: &R, user: UserName, password: Password) -> Caller
        ensures { result ≡ caller_of policy user password };

    /// A login on the pass's line, and what it is told.
    fn login<R: Wait + Dial>(
        &self,
        rt: &R,
        pass: Self::Pass,
        user: UserName,
        password: Password,
        session: SessionName,
        wanted: u64,
        moment: Moment,
    ) -> (Self::Pass, Result<LoginAnswer, StepFault>)
        requires clock { R.shown moment }
        ensures later { IsLater policy (observed pass) (observed result.0) }
        ensures done { IfOk result.1 (LogsIn policy (observed pass) (observed result.0)
            (login_on policy (observed pass).line user password session wanted moment) wanted) }
        ensures refused { OnErr result.1 (mine (observed result.0) ≡ mine (observed pass)) }
        ensures full { IfErr result.1 (IsToldFull (gate_met policy (observed result.0))) }
        ensures adds_one { OnOk result.1 (added result.0 ≡ added pass + 1) }
        ensures adds_none { OnErr result.1 (added result.0 ≡ added pass) };

    /// A request on the pass's line.
    fn act<R: Wait + Dial>(
        &self,
        rt: &R,
        pass: Self::Pass,
        user: UserName,
        request: Request,
        moment: Moment,
    ) -> (Self::Pass, Result<Outcome, StepFault>)
        requires clock { R.shown moment }
        requires first { IsTrue (has_its_first request) }
        ensures later { IsLater policy (observed pass) (observed result.0) }
        ensures done { IfOk result.1 (λ o. AddsOwn (observed pass) (observed result.0)
            (left_by (asked_on (observed pass).line user request moment) o)) }
        ensures refused { OnErr result.1 (mine (observed result.0) ≡ mine (observed pass)) }
        ensures never_refused { OnErr result.1 (MayBeRefused (gate_met policy (observed result.0))
            (asked_on (observed pass).line user request moment)) }
        ensures full { IfErr result.1 (IsToldFull (gate_met policy (observed result.0))) }
        ensures adds_one { OnOk result.1 (added result.0 ≡ added pass + 1) }
        ensures adds_none { OnErr result.1 (added result.0 ≡ added pass) };

    /// A matching step, whose record is nobody's own. `None` where no order waits.
    fn match_one<R: Wait + Dial>(
        &self,
        rt: &R,
        pass: Self::Pass,
        moment: Moment,
    ) -> (Self::Pass, Result<Option<Outcome>, StepFault>)
        requires clock { R.shown moment }
        ensures later { IsLater policy (observed pass) (observed result.0) }
        ensures own { mine (observed result.0) ≡ mine (observed pass) }
        ensures found { IfOk result.1 (λ found. IfSome found (λ o.
            EndsWith (observed pass) (observed result.0) (matched_by moment o))) }
        ensures idle { IfOk result.1 (λ found. IfNone found
            (matching_of (gate_met policy (observed result.0)) ≡ None)) }
        ensures waits { OnErr result.1
            (IsTrue (is_some (matching_of (gate_met policy (observed result.0))))) }
        ensures full { IfErr result.1 (IsToldFull (gate_met policy (observed result.0))) }
        ensures adds_one { IfOk result.1 (λ found. IfSome found (λ _.
            added result.0 ≡ added pass + 1)) }
        ensures adds_none_idle { IfOk result.1 (λ found. IfNone found
            (added result.0 ≡ added pass)) }
        ensures adds_none { OnErr result.1 (added result.0 ≡ added pass) };

    /// Matching steps, until no order waits, one is refused, or so many were made. Their records are nobody's own.
    fn match_some<R: Wait + Dial>(
        &self,
        rt: &R,
        pass: Self::Pass,
        moment: Moment,
        most: u64,
    ) -> (Self::Pass, Matched)
        requires clock { R.shown moment }
        ensures later { IsLater policy (observed pass) (observed result.0) }
        ensures made { MatchesBehind (observed pass) (observed result.0) moment result.1.made }
        ensures own { mine (observed result.0) ≡ mine (observed pass) }
        ensures ended { EndsSo result.1.end (gate_met policy (observed result.0))
            result.1.made most }
        ensures adds { added result.0 ≡ added pass + result.1.made };

    /// A request on the pass's line, and behind it matching steps, as [`Door::match_some`] makes them: nobody comes between.
    /// Where the request is refused, none is made. Tells too what the request's own record ended: the live orders in front of
    /// it that a granted Kill or Close Day ends, and how many of their shares were open.
    fn turn<R: Wait + Dial>(
        &self,
        rt: &R,
        pass: Self::Pass,
        user: UserName,
        request: Request,
        moment: Moment,
        most: u64,
    ) -> (Self::Pass, Result<Turned, StepFault>)
        requires clock { R.shown moment }
        requires first { IsTrue (has_its_first request) }
        ensures later { IsLater policy (observed pass) (observed result.0) }
        ensures done { IfOk result.1 (λ t. Turns policy (observed pass) (observed result.0)
            (left_by (asked_on (observed pass).line user request moment) t.outcome)
            t.ended moment t.matched.made) }
        ensures ended { IfOk result.1 (λ t. EndsSo t.matched.end
            (gate_met policy (observed result.0)) t.matched.made most) }
        ensures refused { OnErr result.1 (mine (observed result.0) ≡ mine (observed pass)) }
        ensures never_refused { OnErr result.1 (MayBeRefused (gate_met policy (observed result.0))
            (asked_on (observed pass).line user request moment)) }
        ensures full { IfErr result.1 (IsToldFull (gate_met policy (observed result.0))) }
        ensures adds { IfOk result.1 (λ t.
            added result.0 ≡ added pass + 1 + t.matched.made) }
        ensures adds_none { OnErr result.1 (added result.0 ≡ added pass) };

    /// The reports of a user who is logged in on the pass's line, from this number on, 0 counting as 1, and at most so
    /// many, 256 where more are asked for.
    fn pull<R: Wait>(
        &self,
        rt: &R,
        pass: Self::Pass,
        user: UserName,
        from: u64,
        most: u64,
    ) -> (Self::Pass, Result<Pulled, PullFault>)
        ensures later { IsLater policy (observed pass) (observed result.0) }
        ensures own { mine (observed result.0) ≡ mine (observed pass) }
        ensures on { OnOk result.1
            (line_of (observed result.0).front (folded_user user) ≡ Some (observed pass).line) }
        ensures not_on { IfErr result.1 (λ e. e ≡ pull_faults.NotOn
            ↔ line_of (observed result.0).front (folded_user user)
            ≢ Some (observed pass).line) }
        ensures pulled { IfOk result.1
            (IsPulled (gate_met policy (observed result.0)) (folded_user user) from most) }
        ensures adds_none { added result.0 ≡ added pass };

    /// A logout on the pass's line.
    fn logout<R: Wait + Dial>(
        &self,
        rt: &R,
        pass: Self::Pass,
        user: UserName,
        moment: Moment,
    ) -> (Self::Pass, Result<Outcome, StepFault>)
        requires clock { R.shown moment }
        ensures later { IsLater policy (observed pass) (observed result.0) }
        ensures done { IfOk result.1 (λ o. AddsOwn (observed pass) (observed result.0)
            (left_by (asked_on (observed pass).line user requests.Logout moment) o)) }
        ensures refused { OnErr result.1 (mine (observed result.0) ≡ mine (observed pass)) }
        ensures never_refused { OnErr result.1 (MayBeRefused (gate_met policy (observed result.0))
            (asked_on (observed pass).line user requests.Logout moment)) }
        ensures full { IfErr result.1 (IsToldFull (gate_met policy (observed result.0))) }
        ensures adds_one { OnOk result.1 (added result.0 ≡ added pass + 1) }
        ensures adds_none { OnErr result.1 (added result.0 ≡ added pass) };

    /// The records from this number on, 0 counting as 1, and at most so many.
    fn records<R: Wait>(
        &self,
        rt: &R,
        pass: Self::Pass,
        from: u64,
        most: u64,
    ) -> (Self::Pass, Result<Vec<Record>, OutOfMemory>)
        ensures later { IsLater policy (observed pass) (observed result.0) }
        ensures own { mine (observed result.0) ≡ mine (observed pass) }
        ensures records { IfOk result.1
            (λ v. v.items ≡ slice (observed result.0).front from most) }
        ensures adds_none { added result.0 ≡ added pass };

    /// Copies the records from this number on, 0 counting as 1, and at most so many, into this list, in place of what stands there.
    /// Takes no memory, so that it is never refused.
    fn copy_records<R: Wait>(
        &self,
        rt: &R,
        pass: Self::Pass,
        from: u64,
        most: u64,
        list: &mut Vec<Record>,
    ) -> Self::Pass
        requires room { most ≤ vec_capacity list.old }
        ensures later { IsLater policy (observed pass) (observed result) }
        ensures own { mine (observed result) ≡ mine (observed pass) }
        ensures records { list.new.items ≡ slice (observed result).front from most }
        ensures room { vec_capacity list.new ≡ vec_capacity list.old }
        ensures adds_none { added result ≡ added pass };

    /// Whether so many of the day's first records may be told: a door that keeps its records elsewhere has them all there. Answers
    /// false where they are not and can't be kept any more, or where there are fewer. Whoever tells of records asks before, with
    /// the length of what his pass has met.
    fn keep<R: Wait>(&self, rt: &R, count: u64) -> bool
        ensures kept { IsTrue result → ShowsKept kept count };

    /// Keeps all that there are by now, for whoever tells nobody of them. Answers false where it can't, and from then on.
    fn keep_all<R: Wait>(&self, rt: &R) -> bool;

    /// Both passes have met the same records.
    fn meet<R: Wait>(&self, rt: &R, one: Self::Pass, other: Self::Pass) -> (Self::Pass, Self::Pass)
        ensures first { IsLater policy (observed one) (observed result.0) }
        ensures second { IsLater policy (observed other) (observed result.1) }
        ensures first_own { mine (observed result.0) ≡ mine (observed one) }
        ensures second_own { mine (observed result.1) ≡ mine (observed other) }
        ensures front { (observed result.0).front ≡ (observed result.1).front }
        ensures apart { (observed one).line ≢ (observed other).line }
        ensures first_adds_none { added result.0 ≡ added one }
        ensures second_adds_none { added result.1 ≡ added other };

    /// How many records there are: at least as many as were met, and as were told before. It waits for nobody.
    fn length(&self, pass: &mut Self::Pass) -> u64
        ensures told { observed pass.new ≡ with_told (observed pass.old) result }
        ensures more { (observed pass.old).told ≤ result }
        ensures front { length (observed pass.old).front ≤ result }
        ensures adds_none { added pass.new ≡ added pass.old };
}
