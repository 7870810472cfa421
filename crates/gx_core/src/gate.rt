//! The gate.

ghost use Rattle.std.specs.Prelude.{◌≡◌, length};
ghost use Rattle.gx_streams.specs.Recorded.{house_of};
ghost use Rattle.gx_history.specs.{InForce.is_closed, Streams.stream, Verdicts.last_moment};

use crate::login::{login_answered, login_asked};
use crate::moves::matched_move;
use crate::putting::put_pull;
use crate::reserve::{first_history, reserve_for, reserve_one};
use gx_access_gate::{
    AccessGate, LoginAnswer, Outcome, Pulled, Reached, Reports, StepFault, record_of,
    record_of_match,
};
use gx_gate_state::GateState;
use gx_gate_state::apply::apply_record;
use gx_gate_state::listed::house_of;
use gx_gate_state::matching::apply_match;
use gx_gate_state::next_record::NextRecord;
use gx_history::History;
use gx_history::moves::Move;
use gx_history::record::{Asked, Record, Request, Verdict};
use gx_history::records::Records;
use gx_history::report::Report;
use gx_index::Near;
use gx_policy::Policy;
use gx_records::ShowsRecords;
use gx_units::{AccountName, Firm, Moment, OutOfMemory, Password, SessionName, UserName};
use std::alloc::Global;
use std::marker::Model;

/// A policy, and the records of a day under it, the oldest first; and what it keeps of these.
///
/// It ends by `close`, and is never dropped.
pub struct Gate {
    alloc: Global,
    pub(crate) policy: Policy,
    pub(crate) state: GateState,
    history: History,
}

impl Model for Gate {
    ghost use Rattle.gx_access_gate.specs.Gates.{GateData};
    ghost use Rattle.gx_core.specs.Kept.{IsWhole};

    ghost Value = { GateData };

    ghost view = { λ g. record { policy = g.policy; records = g.history.records } };

    ghost invariant = { λ g. IsWhole g.policy g.history.records g.history.reserved g.state };
}

impl AccessGate for Gate {
    ghost state = { λ g. g };

    fn open(alloc: Global, policy: &Policy) -> Result<Gate, OutOfMemory> {
        let policy = policy.copied(alloc)?;
        let Ok(history) = first_history(alloc, &policy) else {
            policy.release();
            return Err(OutOfMemory);
        };
        let Ok(state) = GateState::new(alloc, &policy) else {
            policy.release();
            history.release();
            return Err(OutOfMemory);
        };
        Ok(Gate {
            alloc,
            policy,
            state,
            history,
        })
    }

    fn close(self) {
        let Gate {
            alloc: _,
            policy,
            state,
            history,
        } = self;
        policy.release();
        state.release();
        history.release();
    }

    fn step(&mut self, a: Asked) -> Result<Outcome, StepFault> {
        let asker = self.near_asker(&a);
        let mut known = self.facts_of(&a, asker);
        self.put_target_order(&a, &mut known);
        let near = self.near_named(asker, &known);
        let outcome = self.judge(&a, near, &known);
        let entry = record_of(&a, outcome);
        let mut moves = Move::Nothing;
        self.put_asked_move(&mut moves, &a, near, &entry, &known);
        reserve_for(&mut self.history, &self.policy, &a, outcome.verdict)?;
        apply_record(
            &mut self.state,
            NextRecord {
                policy: &self.policy,
                history: &self.history,
                moves: &moves,
                data: &entry,
                near,
            },
            &a,
        )?;
        self.history.push_reserved(Record::new(entry));
        Ok(outcome)
    }

    fn match_one(&mut self, handed: Moment) -> Result<Option<Outcome>, StepFault> {
        let Some(first) = self.first_waiting() else {
            return Ok(None);
        };
        let near = self.near_waiting(&first);
        let outcome = self.match_outcome(&first, near.stock, handed);
        let entry = record_of_match(handed, outcome);
        let moves = matched_move(outcome.verdict);
        reserve_one(&mut self.history, &self.policy)?;
        apply_match(
            &mut self.state,
            NextRecord {
                policy: &self.policy,
                history: &self.history,
                moves: &moves,
                data: &entry,
                near,
            },
        )?;
        let record = Record::new(entry);
        self.history.push_reserved(record);
        Ok(Some(outcome))
    }

    fn policy(&self) -> &Policy {
        &self.policy
    }

    fn length(&self) -> u64 {
        self.history.len() as u64
    }

    fn is_legal(&self) {
        // The type says so: a look at a field is enough.
        let _ = &self.history;
    }

    #[tactic(auto, using(crate::proofs::Facts_call::kill_is_known))]
    fn is_killed(&self, account: AccountName) -> bool {
        self.state.status.is_killed(account, 0)
    }

    #[tactic(auto, using(crate::proofs::Facts_call::line_is_known))]
    fn on(&self, user: UserName) -> Option<u16> {
        self.state.status.line_of(user, 0)
    }

    #[tactic(auto, using(crate::proofs::Facts_call::users_are_known))]
    fn knows(&self, user: UserName) -> bool {
        self.state.people.knows(user)
    }

    fn records(&self, from: u64, most: u64) -> Result<Vec<Record>, OutOfMemory> {
        self.history.records().slice(from, most).to_vec(self.alloc)
    }

    fn reports(&self, user: UserName, from: u64, most: u64) -> Result<Pulled, OutOfMemory> {
        let mut list = Vec::new(self.alloc);
        let reached = self.put_reports(user, 0, from, most, &mut list)?;
        Ok(Pulled {
            reports: Reports::new(list),
            next: reached.next,
            ended: reached.ended,
        })
    }

    #[tactic(auto, using(crate::proofs::Facts_call::reports_are_known, crate::proofs::Facts_call::end_is_known))]
    fn put_reports(
        &self,
        user: UserName,
        near: usize,
        from: u64,
        most: u64,
        list: &mut Vec<Report>,
    ) -> Result<Reached, OutOfMemory> {
        let asker = self.state.people.near(user);
        put_pull(
            &self.state,
            &self.history.records(),
            self.house_of(user, asker),
            user,
            near,
            from,
            most,
            list,
        )
    }

    #[tactic(auto, using(crate::proofs::Facts_call::passwords_are_known))]
    fn login_request(
        &self,
        user: UserName,
        password: Password,
        session: SessionName,
        wanted: u64,
    ) -> Request {
        login_asked(
            &self.state.people,
            &self.policy,
            user,
            password,
            session,
            wanted,
        )
    }

    fn login_answer(&self, user: UserName, wanted: u64, verdict: Verdict) -> LoginAnswer {
        login_answered(&self.policy, self.count_reports(user), wanted, verdict)
    }
}

impl ShowsRecords for Gate {
    fn shown_records(&self) -> Records<'_> {
        self.history.records()
    }
}

impl Gate {
    /// Whether some Close Day was granted.
    #[tactic(auto, using(crate::proofs::Facts_call::end_is_known))]
    pub(crate) fn is_closed(&self) -> bool
        ensures { result ≡ is_closed self.now.records }
    {
        self.state.status.is_closed()
    }

    /// The moment of the last record; 0 where there is none.
    #[tactic(auto, using(crate::proofs::Facts_call::moment_is_known))]
    pub fn last_moment(&self) -> Moment
        ensures { result ≡ last_moment self.now.records }
    {
        self.state.status.last_moment()
    }

    /// The firm of the account that the user trades for.
    #[tactic(auto, using(crate::proofs::Facts_call::accounts_are_known))]
    fn house_of(&self, user: UserName, near: Near) -> Option<Firm>
        ensures { result ≡ house_of self.now.policy user }
    {
        house_of(
            &self.policy,
            self.state.people.account_near(user, near.user),
            near.account,
        )
    }

    /// How many reports the user was owed.
    #[tactic(auto, using(crate::proofs::Facts_call::reports_are_known))]
    pub(crate) fn count_reports(&self, user: UserName) -> u64
        ensures { result ≡ length (stream self.now.policy self.now.records user) }
    {
        self.state.streams.len(user) as u64
    }
}
