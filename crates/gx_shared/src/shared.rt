//! The gate under one lock.

ghost use Rattle.std.specs.Prelude.{◌≡◌, ◌+◌, [], length, IfErr, IfOk, OnErr, OnOk};
ghost use mathlib.Core.List.{IsPrefix};
ghost use Rattle.gx_history.specs.{InForce.line_of, Verdicts.IsLegal};
ghost use Rattle.gx_pass.specs.declared.pass.PassFault.TheVariants as pass_faults;
ghost use Rattle.gx_pass.specs.Views.{highest_line, mine, of_line};
ghost use Rattle.gx_door.specs.Acts.{gate_met, login_on, IsLater, IsToldFull, LogsIn};
ghost use Rattle.gx_shared.specs.{Permits.{all_parts}, CountedPasses.{priority_of}};

use crate::counted_pass::CountedPass;
use crate::guarded_gate::GuardedGate;
use crate::permit::{BlankLedgers, Permits};
use crate::priority_lock::{Priority, PriorityLock};
use gx_access_gate::{AccessGate, LoginAnswer, Outcome, Pulled, StepFault};
use gx_door::{Caller, Dial, Door, Matched, PullFault, Turned};
use gx_history::record::{Record, Request};
use gx_pass::{Blank, GateName, PassFault};
use gx_policy::Policy;
use gx_records::{ShowsRecords, ShowsState};
use gx_units::{Moment, OutOfMemory, Password, SessionName, UserName};
use std::alloc::Global;
use std::sync::Wait;
use std::sync::ledger::Total;

/// The gate under one lock. Each call takes the lock once, but for `length`, which takes none.
///
/// It ends by `close`, `take_back` or `release`, and is never dropped.
pub struct SharedGate<G: AccessGate, N: GateName> {
    guarded: PriorityLock<GuardedGate<G, N>>,
}

impl<G: AccessGate, N: GateName> SharedGate<G, N> {
    /// A gate at the beginning of a day with a copy of the policy, which no thread shares yet, and all permits for passes:
    /// nothing is counted in them, so that the gate has no record.
    ///
    /// # Errors
    ///
    /// `OutOfMemory` where memory was refused.
    pub fn new(
        alloc: Global,
        policy: &Policy,
        blank: Blank,
        ledgers: BlankLedgers,
    ) -> Result<(SharedGate<G, N>, Permits<N>), OutOfMemory>
        requires policy { policy.now ≡ N.policy }
        requires blank { blank ≡ N.table }
        requires records { ledgers.records ≡ N.name }
        requires lines { ledgers.lines ≡ N.lines }
        requires parts { N.parts ≡ all_parts }
        ensures all { IfOk result (λ made. made.1.left + 1 ≡ N.parts) }
        ensures none_added { IfOk result (λ made. made.1.added ≡ 0) }
    {
        let (guarded, permits) = GuardedGate::new(alloc, policy, blank, ledgers)?;
        let shared = SharedGate {
            guarded: PriorityLock::new(guarded),
        };
        Ok((shared, permits))
    }

    /// A gate that has records, which no thread shares yet, all permits for passes but one, in which these are counted,
    /// and a pass of a new line, which has met them. Lines that are issued from now on are above the highest of theirs.
    ///
    /// # Errors
    ///
    /// `NoLines` only where a record has the last line that there is. The gate is closed then, as it is where memory is
    /// refused.
    pub fn over(
        gate: G,
        blank: Blank,
        ledgers: BlankLedgers,
    ) -> Result<(SharedGate<G, N>, Permits<N>, CountedPass<N>), PassFault>
        requires policy { (G.state gate).policy ≡ N.policy }
        requires blank { blank ≡ N.table }
        requires records { ledgers.records ≡ N.name }
        requires lines { ledgers.lines ≡ N.lines }
        requires parts { N.parts ≡ all_parts }
        ensures all { IfOk result (λ made. made.1.left + 2 ≡ N.parts) }
        ensures added { IfOk result (λ made. made.1.added ≡ length (G.state gate).records) }
        ensures front { IfOk result (λ made. made.2.held.front ≡ (G.state gate).records) }
        ensures own { IfOk result (λ made. mine made.2.held ≡ []) }
        ensures none_added { IfOk result (λ made. made.2.added ≡ 0) }
        ensures no_lines { IfErr result (λ e.
            e ≡ pass_faults.NoLines → highest_line (G.state gate).records ≡ 65535) }
    {
        let Ok((mut guarded, mut permits)) = GuardedGate::over(gate, blank, ledgers) else {
            return Err(PassFault::OutOfMemory);
        };
        match guarded.issue(&mut permits) {
            Ok(pass) => {
                let shared = SharedGate {
                    guarded: PriorityLock::new(guarded),
                };
                Ok((shared, permits, pass))
            }
            Err(fault) => {
                guarded.release();
                Err(fault)
            }
        }
    }

    /// A pass of the next line, for one of these permits. It has met all records, of which none is of its line.
    pub(crate) fn issue<R: Wait>(
        &self,
        rt: &R,
        permits: &mut Permits<N>,
    ) -> Result<CountedPass<N>, PassFault>
        ensures legal { IfOk result (λ p. IsLegal N.policy p.held.front) }
        ensures own { IfOk result (λ p. mine p.held ≡ []) }
        ensures adds_none { IfOk result (λ p. p.added ≡ 0) }
        ensures line { IfOk result (λ p. p.held.line ≡ permits.new.issued) }
        ensures next { OnOk result (permits.new.issued ≡ permits.old.issued + 1) }
        ensures no_lines { IfErr result (λ e.
            e ≡ pass_faults.NoLines → permits.old.issued ≡ 65535) }
        ensures one_less { OnOk result (permits.new.left + 1 ≡ permits.old.left) }
        ensures none_less { OnErr result (permits.new ≡ permits.old) }
        ensures counted { permits.new.added ≡ permits.old.added }
    {
        self.guarded.lock(rt, Priority::Ordinary).issue(permits)
    }

    /// The gate, the pass, which has met all its records, and how many these are. It has all that the pass had met, and of
    /// the pass's line its own records.
    pub fn close(self, pass: CountedPass<N>) -> (G, CountedPass<N>, Total<N>)
        ensures policy { (G.state result.0).policy ≡ N.policy }
        ensures legal { IsLegal N.policy (G.state result.0).records }
        ensures front { IsPrefix pass.held.front (G.state result.0).records }
        ensures mine { of_line pass.held.line (G.state result.0).records ≡ mine pass.held }
        ensures line { result.1.held.line ≡ pass.held.line }
        ensures met { result.1.held.front ≡ (G.state result.0).records }
        ensures added { result.1.added ≡ pass.added }
        ensures total { result.2.amount ≡ length (G.state result.0).records }
    {
        let SharedGate { guarded } = self;
        let CountedPass { pass, rights } = pass;
        let (gate, pass, total) = guarded.into_inner().close(pass);
        (gate, CountedPass { pass, rights }, total)
    }

    /// The gate, where no pass is at hand. If all permits are left, so that none was issued, it has as many records as are
    /// counted in them.
    /// Part of the interface: an end for who holds no pass, as `close` is for who holds one.
    pub fn take_back(self, permits: Permits<N>) -> G
        ensures policy { (G.state result).policy ≡ N.policy }
        ensures counted { permits.left + 1 ≡ N.parts
            → permits.added ≡ length (G.state result).records }
    {
        let SharedGate { guarded } = self;
        guarded.into_inner().take_back(permits)
    }

    /// Lets the gate go, where nobody holds a pass or its records are of no use.
    pub fn release(self) {
        let SharedGate { guarded } = self;
        guarded.into_inner().release();
    }
}

impl<G: ShowsRecords + ShowsState, N: GateName> Door for SharedGate<G, N> {
    ghost use Rattle.std.specs.Prelude.{ℕ};

    type Pass = CountedPass<N>;

    ghost policy = { N.policy };

    ghost observed = { λ p. p.held };

    ghost added = { λ p. p.added };

    ghost Kept = { ℕ };

    ghost kept = { λ n. n };

    fn line_of(&self, pass: &CountedPass<N>) -> u16 {
        pass.line()
    }

    fn caller<R: Wait>(&self, rt: &R, user: UserName, password: Password) -> Caller {
        self.guarded
            .lock(rt, Priority::Ordinary)
            .caller(user, password)
    }

    fn login<R: Wait + Dial>(
        &self,
        rt: &R,
        pass: CountedPass<N>,
        user: UserName,
        password: Password,
        session: SessionName,
        wanted: u64,
        moment: Moment,
    ) -> (CountedPass<N>, Result<LoginAnswer, StepFault>)
        requires clock { R.shown moment }
        ensures later { IsLater N.policy pass.held result.0.held }
        ensures done { IfOk result.1 (LogsIn N.policy pass.held result.0.held
            (login_on N.policy pass.held.line user password session wanted moment) wanted) }
        ensures refused { OnErr result.1 (mine result.0.held ≡ mine pass.held) }
        ensures full { IfErr result.1 (IsToldFull (gate_met N.policy result.0.held)) }
        ensures adds_one { OnOk result.1 (result.0.added ≡ pass.added + 1) }
        ensures adds_none { OnErr result.1 (result.0.added ≡ pass.added) }
        ensures priority { result.0.priority ≡ priority_of N.policy user }
    {
        let CountedPass { pass, mut rights } = pass;
        let mut guarded = self.guarded.lock(rt, Priority::Ordinary);
        rights.priority = guarded.priority_of(user);
        let (pass, result) = guarded.login(
            pass,
            &mut rights.share,
            user,
            password,
            session,
            wanted,
            moment,
        );
        (CountedPass { pass, rights }, result)
    }

    fn act<R: Wait + Dial>(
        &self,
        rt: &R,
        pass: CountedPass<N>,
        user: UserName,
        request: Request,
        moment: Moment,
    ) -> (CountedPass<N>, Result<Outcome, StepFault>) {
        let CountedPass { pass, mut rights } = pass;
        let (pass, result) = self
            .guarded
            .lock(rt, rights.priority)
            .act_with_pass(pass, &mut rights.share, user, request, moment);
        (CountedPass { pass, rights }, result)
    }

    fn match_one<R: Wait + Dial>(
        &self,
        rt: &R,
        pass: CountedPass<N>,
        moment: Moment,
    ) -> (CountedPass<N>, Result<Option<Outcome>, StepFault>) {
        let CountedPass { pass, mut rights } = pass;
        let (pass, result) = self
            .guarded
            .lock(rt, rights.priority)
            .match_one(pass, &mut rights.share, moment);
        (CountedPass { pass, rights }, result)
    }

    fn match_some<R: Wait + Dial>(
        &self,
        rt: &R,
        pass: CountedPass<N>,
        moment: Moment,
        most: u64,
    ) -> (CountedPass<N>, Matched) {
        let CountedPass { pass, mut rights } = pass;
        let (pass, matched) = self
            .guarded
            .lock(rt, rights.priority)
            .match_some(pass, &mut rights.share, moment, most);
        (CountedPass { pass, rights }, matched)
    }

    fn turn<R: Wait + Dial>(
        &self,
        rt: &R,
        pass: CountedPass<N>,
        user: UserName,
        request: Request,
        moment: Moment,
        most: u64,
    ) -> (CountedPass<N>, Result<Turned, StepFault>) {
        let CountedPass { pass, mut rights } = pass;
        let (pass, result) = self
            .guarded
            .lock(rt, rights.priority)
            .turn(pass, &mut rights.share, user, request, moment, most);
        (CountedPass { pass, rights }, result)
    }

    fn pull<R: Wait>(
        &self,
        rt: &R,
        pass: CountedPass<N>,
        user: UserName,
        from: u64,
        most: u64,
    ) -> (CountedPass<N>, Result<Pulled, PullFault>) {
        let CountedPass { pass, rights } = pass;
        let (pass, result) = self
            .guarded
            .lock(rt, rights.priority)
            .pull(pass, user, from, most);
        (CountedPass { pass, rights }, result)
    }

    fn logout<R: Wait + Dial>(
        &self,
        rt: &R,
        pass: CountedPass<N>,
        user: UserName,
        moment: Moment,
    ) -> (CountedPass<N>, Result<Outcome, StepFault>) {
        self.act(rt, pass, user, Request::Logout, moment)
    }

    fn records<R: Wait>(
        &self,
        rt: &R,
        pass: CountedPass<N>,
        from: u64,
        most: u64,
    ) -> (CountedPass<N>, Result<Vec<Record>, OutOfMemory>) {
        let CountedPass { pass, rights } = pass;
        let (pass, result) = self
            .guarded
            .lock(rt, rights.priority)
            .records(pass, from, most);
        (CountedPass { pass, rights }, result)
    }

    fn copy_records<R: Wait>(
        &self,
        rt: &R,
        pass: CountedPass<N>,
        from: u64,
        most: u64,
        list: &mut Vec<Record>,
    ) -> CountedPass<N> {
        let CountedPass { pass, rights } = pass;
        // those that stand there go before the lock is taken
        list.clear();
        let pass = self
            .guarded
            .lock(rt, rights.priority)
            .copy_records(pass, from, most, list);
        CountedPass { pass, rights }
    }

    fn keep<R: Wait>(&self, _rt: &R, _count: u64) -> bool {
        true
    }

    fn keep_all<R: Wait>(&self, _rt: &R) -> bool {
        true
    }

    fn meet<R: Wait>(
        &self,
        rt: &R,
        one: CountedPass<N>,
        other: CountedPass<N>,
    ) -> (CountedPass<N>, CountedPass<N>) {
        let CountedPass { pass, rights } = one;
        let CountedPass {
            pass: other,
            rights: theirs,
        } = other;
        let (pass, other) = self.guarded.lock(rt, rights.priority).meet(pass, other);
        let first = CountedPass { pass, rights };
        let second = CountedPass {
            pass: other,
            rights: theirs,
        };
        (first, second)
    }

    fn length(&self, pass: &mut CountedPass<N>) -> u64 {
        pass.length()
    }
}
