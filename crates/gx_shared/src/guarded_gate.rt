//! What lies under the lock.

ghost use Rattle.std.specs.Prelude.{◌≡◌, ◌≢◌, ◌↔◌, ◌+◌, ◌<◌, ◌≤◌, ◌++◌, ◌∷◌, [], length, IsTrue, IfErr, IfNone, IfOk, IfSome, OnErr, OnOk, Some, None, is_some, vec_capacity};
ghost use mathlib.Core.List.{IsPrefix};
ghost use Rattle.gx_units.specs.Spelling.{folded_user};
ghost use Rattle.gx_history.specs.{InForce.line_of, Showing.has_its_first, Verdicts.IsLegal};
ghost use Rattle.gx_policy.specs.Lists.{slice};
ghost use Rattle.gx_access_gate.specs.{Gates.{left_by, matched_by}, Matches.matching_of};
ghost use Rattle.gx_pass.specs.declared.pass.PassFault.TheVariants as pass_faults;
ghost use Rattle.gx_pass.specs.Views.{highest_line, mine, of_line};
ghost use Rattle.gx_door.specs.declared.fault.PullFault.TheVariants as pull_faults;
ghost use Rattle.gx_door.specs.{Acts.{asked_on, gate_at, login_on, AddsOwn, EndsWith, IsLater, IsPulled, IsToldFull, LogsIn, MayBeRefused}, Callers.caller_of, Matching.{EndsSo, MatchesBehind, Turns}};
ghost use Rattle.gx_shared.specs.{CountedPasses.{priority_of}, Permits.{all_parts}};

use crate::copying::copy_slice;
use crate::counted_pass::CountedPass;
use crate::counting::CountingKeeper;
use crate::permit::{BlankLedgers, Permits};
use crate::priority_lock::Priority;
use crate::resuming::resume;
use crate::steps::{asked_on, leave, match_and_note, match_some, pull, step_and_note, turn};
use gx_access_gate::{AccessGate, LoginAnswer, Outcome, Pulled, StepFault};
use gx_door::{Caller, Matched, PullFault, Turned, is_officer};
use gx_history::record::{Record, Request};
use gx_pass::{Blank, GateName, Keeper, Pass, PassFault};
use gx_policy::Policy;
use gx_records::{ShowsRecords, ShowsState};
use gx_units::{Moment, OutOfMemory, Password, SessionName, UserName};
use std::alloc::Global;
use std::marker::Model;
use std::sync::ledger::{Share, Total};

/// The gate, and the keeper of its history, by which each record is counted. Contracts see the gate's records. It is
/// closed, and never dropped: the drop of all that a gate keeps is proved where the gate is.
pub struct GuardedGate<G: AccessGate, N: GateName> {
    gate: G,
    keeper: CountingKeeper<N>,
}

impl<G: AccessGate, N: GateName> Model for GuardedGate<G, N> {
    ghost use Rattle.std.specs.Prelude.{◌≡◌, List};
    ghost use Rattle.gx_history.specs.declared.record.RecordData.{RecordData};

    ghost Value = { List RecordData };

    ghost view = { λ d. (G.state d.gate).records };

    ghost invariant = { λ d. ((G.state d.gate).policy ≡ N.policy)
        × (d.keeper.list ≡ (G.state d.gate).records) };
}

impl<G: AccessGate, N: GateName> GuardedGate<G, N> {
    /// A guarded gate at the beginning of a day, and all permits for passes, in which nothing is counted.
    ///
    /// # Errors
    ///
    /// `OutOfMemory` where memory was refused.
    pub fn new(
        alloc: Global,
        policy: &Policy,
        blank: Blank,
        ledgers: BlankLedgers,
    ) -> Result<(GuardedGate<G, N>, Permits<N>), OutOfMemory>
        requires policy { policy.now ≡ N.policy }
        requires blank { blank ≡ N.table }
        requires records { ledgers.records ≡ N.name }
        requires lines { ledgers.lines ≡ N.lines }
        requires parts { N.parts ≡ all_parts }
        ensures guarded { IfOk result (λ made. made.0 ≡ []) }
        ensures all { IfOk result (λ made. made.1.left + 1 ≡ N.parts) }
        ensures none_added { IfOk result (λ made. made.1.added ≡ 0) }
    {
        let gate = G::open(alloc, policy)?;
        let (keeper, permits) = CountingKeeper::over(Keeper::open(blank), 0, ledgers);
        Ok((GuardedGate { gate, keeper }, permits))
    }

    /// A guarded gate over one that has records, and all permits for passes, in which these and their lines are counted: no line
    /// up to the highest of theirs is issued any more.
    ///
    /// # Errors
    ///
    /// `OutOfMemory` where memory was refused.
    pub fn over(
        gate: G,
        blank: Blank,
        ledgers: BlankLedgers,
    ) -> Result<(GuardedGate<G, N>, Permits<N>), OutOfMemory>
        requires policy { (G.state gate).policy ≡ N.policy }
        requires blank { blank ≡ N.table }
        requires records { ledgers.records ≡ N.name }
        requires lines { ledgers.lines ≡ N.lines }
        requires parts { N.parts ≡ all_parts }
        ensures guarded { IfOk result (λ made. made.0 ≡ (G.state gate).records) }
        ensures all { IfOk result (λ made. made.1.left + 1 ≡ N.parts) }
        ensures added { IfOk result (λ made. made.1.added ≡ length (G.state gate).records) }
        ensures issued { IfOk result (λ made.
            made.1.issued ≡ highest_line (G.state gate).records) }
    {
        match resume(&gate, blank) {
            Ok(keeper) => {
                let (keeper, permits) = CountingKeeper::over(keeper, gate.length(), ledgers);
                Ok((GuardedGate { gate, keeper }, permits))
            }
            Err(refused) => {
                gate.close();
                Err(refused)
            }
        }
    }

    /// Who asks to log in so, by the policy.
    pub fn caller(&self, user: UserName, password: Password) -> Caller
        ensures { result ≡ caller_of N.policy user password }
    {
        Caller::of(self.gate.policy(), user, password)
    }

    /// How a user of this name waits for the gate once he is logged in: an officer goes before all others.
    pub fn priority_of(&self, user: UserName) -> Priority
        ensures { result ≡ priority_of N.policy user }
    {
        if is_officer(self.gate.policy(), user.folded()) {
            Priority::Urgent
        } else {
            Priority::Ordinary
        }
    }

    /// A pass of the next line, for one of these permits. It has met all records.
    ///
    /// # Errors
    ///
    /// Where it gives none, the permits are as they were.
    pub fn issue(&mut self, permits: &mut Permits<N>) -> Result<CountedPass<N>, PassFault>
        ensures same { self.new ≡ self.old }
        ensures front { IfOk result (λ p. p.held.front ≡ self.old) }
        ensures legal { IfOk result (λ p. IsLegal N.policy p.held.front) }
        ensures own { IfOk result (λ p. mine p.held ≡ []) }
        ensures none_added { IfOk result (λ p. p.added ≡ 0) }
        ensures line { IfOk result (λ p. p.held.line ≡ permits.new.issued) }
        ensures next { OnOk result (permits.new.issued ≡ permits.old.issued + 1) }
        ensures one_less { OnOk result (permits.new.left + 1 ≡ permits.old.left) }
        ensures added { permits.new.added ≡ permits.old.added }
        ensures none_less { OnErr result (permits.new ≡ permits.old) }
        ensures no_lines { IfErr result (λ e.
            e ≡ pass_faults.NoLines → permits.old.issued ≡ 65535) }
    {
        self.gate.is_legal();
        self.keeper.issue(permits)
    }

    /// A login on the pass's line, and what it is told. Its record is counted in the share.
    pub fn login(
        &mut self,
        pass: Pass<N>,
        share: &mut Share<N>,
        user: UserName,
        password: Password,
        session: SessionName,
        wanted: u64,
        moment: Moment,
    ) -> (Pass<N>, Result<LoginAnswer, StepFault>)
        requires part { 0 < share.old.parts }
        ensures front { result.0.front ≡ self.new }
        ensures later { IsLater N.policy pass result.0 }
        ensures done { IfOk result.1 (LogsIn N.policy pass result.0
            (login_on N.policy pass.line user password session wanted moment) wanted) }
        ensures refused { OnErr result.1 (mine result.0 ≡ mine pass) }
        ensures full { IfErr result.1 (IsToldFull (gate_at N.policy self.new)) }
        ensures adds_one { OnOk result.1 (share.new.amount ≡ share.old.amount + 1) }
        ensures adds_none { OnErr result.1 (share.new.amount ≡ share.old.amount) }
        ensures parts { share.new.parts ≡ share.old.parts }
    {
        let request = self.gate.login_request(user, password, session, wanted);
        let (pass, result) = self.act_with_pass(pass, share, user, request, moment);
        match result {
            Ok(outcome) => {
                let answer = self
                    .gate
                    .login_answer(user.folded(), wanted, outcome.verdict);
                (pass, Ok(answer))
            }
            Err(fault) => (pass, Err(fault)),
        }
    }

    /// A request on the pass's line. Its record is counted in the share.
    pub fn act_with_pass(
        &mut self,
        pass: Pass<N>,
        share: &mut Share<N>,
        user: UserName,
        request: Request,
        moment: Moment,
    ) -> (Pass<N>, Result<Outcome, StepFault>)
        requires first { IsTrue (has_its_first request) }
        requires part { 0 < share.old.parts }
        ensures front { result.0.front ≡ self.new }
        ensures later { IsLater N.policy pass result.0 }
        ensures step { IfOk result.1 (λ o.
            self.new ≡ self.old ++ left_by (asked_on pass.line user request moment) o ∷ []) }
        ensures done { IfOk result.1 (λ o.
            AddsOwn pass result.0 (left_by (asked_on pass.line user request moment) o)) }
        ensures same { OnErr result.1 (self.new ≡ self.old) }
        ensures refused { OnErr result.1 (mine result.0 ≡ mine pass) }
        ensures never_refused { OnErr result.1 (MayBeRefused (gate_at N.policy self.new)
            (asked_on pass.line user request moment)) }
        ensures full { IfErr result.1 (IsToldFull (gate_at N.policy self.new)) }
        ensures adds_one { OnOk result.1 (share.new.amount ≡ share.old.amount + 1) }
        ensures adds_none { OnErr result.1 (share.new.amount ≡ share.old.amount) }
        ensures parts { share.new.parts ≡ share.old.parts }
    {
        let line = pass.line();
        let entered = self.keeper.enter(pass);
        let asked = asked_on(line, user, request, moment);
        let result = step_and_note(&mut self.gate, &mut self.keeper, share, asked);
        (leave(&self.gate, &mut self.keeper, entered), result)
    }

    /// A matching step, whose record is nobody's own, and is counted in the share.
    pub fn match_one(
        &mut self,
        pass: Pass<N>,
        share: &mut Share<N>,
        moment: Moment,
    ) -> (Pass<N>, Result<Option<Outcome>, StepFault>)
        requires part { 0 < share.old.parts }
        ensures front { result.0.front ≡ self.new }
        ensures later { IsLater N.policy pass result.0 }
        ensures own { mine result.0 ≡ mine pass }
        ensures found { IfOk result.1 (λ found. IfSome found (λ o.
            EndsWith pass result.0 (matched_by moment o))) }
        ensures idle { IfOk result.1 (λ found. IfNone found
            ((self.new ≡ self.old) × (matching_of (gate_at N.policy self.new) ≡ None))) }
        ensures waits { OnErr result.1
            (IsTrue (is_some (matching_of (gate_at N.policy self.new)))) }
        ensures same { OnErr result.1 (self.new ≡ self.old) }
        ensures full { IfErr result.1 (IsToldFull (gate_at N.policy self.new)) }
        ensures adds_one { IfOk result.1 (λ found. IfSome found (λ _.
            share.new.amount ≡ share.old.amount + 1)) }
        ensures adds_none_idle { IfOk result.1 (λ found. IfNone found
            (share.new.amount ≡ share.old.amount)) }
        ensures adds_none { OnErr result.1 (share.new.amount ≡ share.old.amount) }
        ensures parts { share.new.parts ≡ share.old.parts }
    {
        let entered = self.keeper.enter(pass);
        let result = match_and_note(&mut self.gate, &mut self.keeper, share, moment);
        (leave(&self.gate, &mut self.keeper, entered), result)
    }

    /// Matching steps, until no order waits, one is refused, or so many were made. Their records are nobody's own, and are
    /// counted in the share.
    pub fn match_some(
        &mut self,
        pass: Pass<N>,
        share: &mut Share<N>,
        moment: Moment,
        most: u64,
    ) -> (Pass<N>, Matched)
        requires part { 0 < share.old.parts }
        ensures front { result.0.front ≡ self.new }
        ensures later { IsLater N.policy pass result.0 }
        ensures made { MatchesBehind pass result.0 moment result.1.made }
        ensures own { mine result.0 ≡ mine pass }
        ensures ended { EndsSo result.1.end (gate_at N.policy self.new) result.1.made most }
        ensures adds { share.new.amount ≡ share.old.amount + result.1.made }
        ensures parts { share.new.parts ≡ share.old.parts }
    {
        let entered = self.keeper.enter(pass);
        let matched = match_some(&mut self.gate, &mut self.keeper, share, moment, most);
        (leave(&self.gate, &mut self.keeper, entered), matched)
    }

    /// The reports of a user who is logged in on the pass's line, from this number on, at most so many.
    pub fn pull(
        &mut self,
        pass: Pass<N>,
        user: UserName,
        from: u64,
        most: u64,
    ) -> (Pass<N>, Result<Pulled, PullFault>)
        ensures same { self.new ≡ self.old }
        ensures front { result.0.front ≡ self.new }
        ensures later { IsLater N.policy pass result.0 }
        ensures own { mine result.0 ≡ mine pass }
        ensures on { OnOk result.1
            (line_of self.new (folded_user user) ≡ Some pass.line) }
        ensures not_on { IfErr result.1 (λ e.
            e ≡ pull_faults.NotOn ↔ line_of self.new (folded_user user) ≢ Some pass.line) }
        ensures pulled { IfOk result.1
            (IsPulled (gate_at N.policy self.new) (folded_user user) from most) }
    {
        let line = pass.line();
        let entered = self.keeper.enter(pass);
        let result = pull(&self.gate, line, user.folded(), from, most);
        (leave(&self.gate, &mut self.keeper, entered), result)
    }

    /// The records from this number on, 0 counting as 1, and at most so many.
    pub fn records(
        &mut self,
        pass: Pass<N>,
        from: u64,
        most: u64,
    ) -> (Pass<N>, Result<Vec<Record>, OutOfMemory>)
        ensures same { self.new ≡ self.old }
        ensures front { result.0.front ≡ self.new }
        ensures later { IsLater N.policy pass result.0 }
        ensures own { mine result.0 ≡ mine pass }
        ensures records { IfOk result.1 (λ v. v.items ≡ slice self.new from most) }
    {
        let entered = self.keeper.enter(pass);
        let result = self.gate.records(from, most);
        (leave(&self.gate, &mut self.keeper, entered), result)
    }

    /// Both passes have met the same history.
    pub fn meet(&mut self, one: Pass<N>, other: Pass<N>) -> (Pass<N>, Pass<N>)
        ensures same { self.new ≡ self.old }
        ensures first { IsLater N.policy one result.0 }
        ensures second { IsLater N.policy other result.1 }
        ensures first_own { mine result.0 ≡ mine one }
        ensures second_own { mine result.1 ≡ mine other }
        ensures front { result.0.front ≡ result.1.front }
        ensures apart { one.line ≢ other.line }
    {
        let one = self.keeper.enter(one);
        let other = self.keeper.enter(other);
        let one = leave(&self.gate, &mut self.keeper, one);
        (one, leave(&self.gate, &mut self.keeper, other))
    }

    /// The gate, the pass, which has met all its records, and how many these are. It has all that the pass had met, and of
    /// the pass's line its own records.
    pub fn close(self, pass: Pass<N>) -> (G, Pass<N>, Total<N>)
        ensures policy { (G.state result.0).policy ≡ N.policy }
        ensures records { (G.state result.0).records ≡ self }
        ensures legal { IsLegal N.policy (G.state result.0).records }
        ensures front { IsPrefix pass.front (G.state result.0).records }
        ensures mine { of_line pass.line (G.state result.0).records ≡ mine pass }
        ensures line { result.1.line ≡ pass.line }
        ensures met { result.1.front ≡ (G.state result.0).records }
        ensures total { result.2.amount ≡ length (G.state result.0).records }
    {
        let GuardedGate { gate, mut keeper } = self;
        let entered = keeper.enter(pass);
        let pass = leave(&gate, &mut keeper, entered);
        (gate, pass, keeper.close())
    }

    /// The gate. Where all permits are left, it has as many records as are counted in them.
    /// Part of the interface: an end for who holds no pass, as `close` is for who holds one.
    pub fn take_back(self, permits: Permits<N>) -> G
        ensures policy { (G.state result).policy ≡ N.policy }
        ensures records { (G.state result).records ≡ self }
        ensures counted { permits.left + 1 ≡ N.parts → permits.added ≡ length self }
    {
        let GuardedGate { gate, mut keeper } = self;
        let mut permits = permits;
        keeper.audit(&mut permits);
        gate
    }

    /// Lets the gate go.
    pub fn release(self) {
        let GuardedGate { gate, keeper: _ } = self;
        gate.close();
    }
}

impl<G: ShowsRecords, N: GateName> GuardedGate<G, N> {
    /// Copies the records from this number on, 0 counting as 1, and at most so many, into this list, in place of what stands
    /// there. Takes no memory.
    pub fn copy_records(
        &mut self,
        pass: Pass<N>,
        from: u64,
        most: u64,
        list: &mut Vec<Record>,
    ) -> Pass<N>
        requires room { most ≤ vec_capacity list.old }
        ensures same { self.new ≡ self.old }
        ensures front { result.front ≡ self.new }
        ensures later { IsLater N.policy pass result }
        ensures own { mine result ≡ mine pass }
        ensures records { list.new.items ≡ slice self.new from most }
        ensures room { vec_capacity list.new ≡ vec_capacity list.old }
    {
        let entered = self.keeper.enter(pass);
        copy_slice(&self.gate, from, most, list);
        leave(&self.gate, &mut self.keeper, entered)
    }
}

impl<G: ShowsState, N: GateName> GuardedGate<G, N> {
    /// A request on the pass's line, and matching steps behind it, all of which are counted in the share.
    pub fn turn(
        &mut self,
        pass: Pass<N>,
        share: &mut Share<N>,
        user: UserName,
        request: Request,
        moment: Moment,
        most: u64,
    ) -> (Pass<N>, Result<Turned, StepFault>)
        requires first { IsTrue (has_its_first request) }
        requires part { 0 < share.old.parts }
        ensures front { result.0.front ≡ self.new }
        ensures later { IsLater N.policy pass result.0 }
        ensures done { IfOk result.1 (λ t.
            Turns N.policy pass result.0
            (left_by (asked_on pass.line user request moment) t.outcome)
            t.ended moment t.matched.made) }
        ensures ended { IfOk result.1 (λ t.
            EndsSo t.matched.end (gate_at N.policy self.new) t.matched.made most) }
        ensures refused { OnErr result.1 (mine result.0 ≡ mine pass) }
        ensures never_refused { OnErr result.1 (MayBeRefused (gate_at N.policy self.new)
            (asked_on pass.line user request moment)) }
        ensures full { IfErr result.1 (IsToldFull (gate_at N.policy self.new)) }
        ensures adds { IfOk result.1 (λ t.
            share.new.amount ≡ share.old.amount + 1 + t.matched.made) }
        ensures adds_none { OnErr result.1 (share.new.amount ≡ share.old.amount) }
        ensures parts { share.new.parts ≡ share.old.parts }
    {
        let line = pass.line();
        let entered = self.keeper.enter(pass);
        let asked = asked_on(line, user, request, moment);
        let result = turn(&mut self.gate, &mut self.keeper, share, asked, most);
        (leave(&self.gate, &mut self.keeper, entered), result)
    }
}
