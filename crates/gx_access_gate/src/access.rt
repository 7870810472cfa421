//! What is asked of a gate that one has alone.

ghost use Rattle.std.specs.Prelude.{◌≡◌, ◌+◌, ◌<◌, ◌^◌, max, [], length, IsFalse, IsOk, IsTrue, IfOk, IfErr, IfSome, OnOk, OnErr, None, Some, is_some, option_map};
ghost use Rattle.gx_laws.specs.Exposure.{NetStaysWithin, SharesStayWithin, ValuesStayWithin};
ghost use Rattle.gx_history.specs.{InForce.{is_killed, line_of}, Matched.{AreUncrossed, HasNoOrders}, Showing.is_askable, Verdicts.IsLegal};
ghost use Rattle.gx_policy.specs.{Lists.slice, People.user_in};
ghost use Rattle.gx_access_gate.specs.declared.outcome.StepFault.TheVariants as faults;
ghost use Rattle.gx_access_gate.specs.{Effects.{moved_by, world_of, EndsKills, MayMoveBy, NoneHeldWhereNoneAsked, NoneOnSideWhereNoneAsked}, Gates.{left_by, matched_by}, Logins.login_answered, Matches.{matches_left, matching_of, next_match, settled_gate, with_match}, Steps.{never_refuses, next_of, verdict_of, with_record, IsFull, IsJudged}, Reports.{reader_copies, ends_before, login_of, reads, stream_of}};

use crate::outcome::{LoginAnswer, Outcome, StepFault};
use crate::pulled::{Pulled, Reached};
use gx_history::record::{Asked, Record, Request, Verdict};
use gx_history::report::Report;
use gx_policy::Policy;
use gx_units::{AccountName, Moment, OutOfMemory, Password, SessionName, UserName};
use std::alloc::Global;

/// A gate that one has alone: a policy, and the records of a day under it. Connections, scripts, audits and what threads
/// share are proved over any such gate.
///
/// It ends by `close`, and is never dropped.
pub trait AccessGate {
    ghost use Rattle.gx_access_gate.specs.Gates.{GateData};

    // The policy and the records, which are all that contracts see of a gate.
    ghost state: { Self → GateData };

    /// A gate at the beginning of a day, with a copy of the policy.
    fn open(alloc: Global, policy: &Policy) -> Result<Self, OutOfMemory>
        ensures policy { IfOk result (λ gate. (state gate).policy ≡ policy.now) }
        ensures records { IfOk result (λ gate. (state gate).records ≡ []) };

    /// Lets the gate go.
    fn close(self);

    /// Judges the request on all earlier records, and puts its record last.
    ///
    /// The request's line is above 0, and its user in upper case.
    /// `DayFull` comes before `OutOfMemory`, and only where the day has as many records as it may have. A granted Kill or
    /// Logout takes no memory, and is never refused.
    fn step(&mut self, a: Asked) -> Result<Outcome, StepFault>
        requires askable { IsTrue (is_askable a) }
        ensures policy { (state self.new).policy ≡ (state self.old).policy }
        ensures next { IfOk result (λ o. next_of (state self.old) a ≡ Some (left_by a o)) }
        ensures records { IfOk result (λ o.
            (state self.new).records ≡ with_record (state self.old) a o) }
        ensures verdict { IfOk result (λ o. o.verdict ≡ verdict_of (state self.old) a) }
        ensures judged { IfOk result (λ o. IsJudged (state self.old) a o.verdict) }
        ensures effect { IfOk result
            (λ o. world_of (state self.new) ≡ moved_by (state self.old) (left_by a o)) }
        ensures may_move { IfOk result (λ o. MayMoveBy (state self.old) (left_by a o)) }
        ensures lifted_by { IfOk result
            (λ o. EndsKills (state self.old) (state self.new) (left_by a o)) }
        ensures unchanged { OnErr result (state self.new ≡ state self.old) }
        ensures never_refused { IsTrue (never_refuses (state self.old) a) → IsOk result }
        ensures full { IsFull (state self.old) → IsFalse (never_refuses (state self.old) a)
            → result ≡ Err faults.DayFull }
        ensures day_full { IfErr result (λ e. e ≡ faults.DayFull → IsFull (state self.old)) };

    /// Makes the next matching step, and puts its record last: the first order that waits trades with the best that
    /// rests on the other side of its stock, or comes to rest, or ends. `None` where no order waits; that takes no memory.
    ///
    /// # Errors
    ///
    /// `DayFull` comes before `OutOfMemory`, and only where an order waits and the day has as many records as it may have.
    fn match_one(&mut self, handed: Moment) -> Result<Option<Outcome>, StepFault>
        ensures policy { (state self.new).policy ≡ (state self.old).policy }
        ensures idle { matching_of (state self.old) ≡ None → result ≡ Ok None }
        ensures next { IfOk result (λ found.
            next_match (state self.old) handed ≡ option_map (matched_by handed) found) }
        ensures records { IfOk result (λ found.
            state self.new ≡ with_match (state self.old) handed found) }
        ensures effect { IfOk result (λ found. IfSome found
            (λ o. world_of (state self.new) ≡ moved_by (state self.old) (matched_by handed o))) }
        ensures may_move { IfOk result (λ found. IfSome found
            (λ o. MayMoveBy (state self.old) (matched_by handed o))) }
        ensures settles { IfOk result (λ found.
            settled_gate (state self.new) handed ≡ settled_gate (state self.old) handed) }
        ensures fewer { IfOk result (λ found. IfSome found (λ o.
            matches_left (state self.new) < matches_left (state self.old))) }
        ensures uncrossed { IfOk result
            (λ found. AreUncrossed (state self.new).policy (state self.new).records) }
        ensures unchanged { OnErr result (state self.new ≡ state self.old) }
        ensures full { IsTrue (is_some (matching_of (state self.old))) → IsFull (state self.old)
            → result ≡ Err faults.DayFull }
        ensures day_full { IfErr result (λ e. e ≡ faults.DayFull → IsFull (state self.old)) };

    /// The policy that the day is run under.
    fn policy(&self) -> &Policy
        ensures { result.now ≡ (state self.now).policy };

    /// How many records there are.
    fn length(&self) -> u64
        ensures count { result ≡ length (state self.now).records }
        ensures few { result < 2 ^ 63 };

    /// The records are those of a legal day under the policy: each is what its step leaves after those before it. No
    /// buy that rests is at or above a sell that rests in its stock.
    ///
    /// What accounts have open and executed is within the limit of each gross rule, as it was in force when one of them
    /// was last granted an order: in shares always, in value but for what their sells got above their own prices since.
    /// Accounts that were granted no order have nothing.
    ///
    /// What accounts have open and executed on one side of a stock is within the limit of each net rule, as it was in
    /// force when one of them was last granted an order there, and what they executed on the other side. Accounts that
    /// were granted no order on a side have nothing there.
    fn is_legal(&self)
        ensures legal { IsLegal (state self.now).policy (state self.now).records }
        ensures uncrossed { AreUncrossed (state self.now).policy (state self.now).records }
        ensures shares_within { SharesStayWithin (state self.now).policy (state self.now).records }
        ensures values_within { ValuesStayWithin (state self.now).policy (state self.now).records }
        ensures none_held { NoneHeldWhereNoneAsked (state self.now) }
        ensures net_within { NetStaysWithin (state self.now).policy (state self.now).records }
        ensures none_on_side { NoneOnSideWhereNoneAsked (state self.now) };

    /// Whether the account is killed: since its last granted Kill, fewer different officers were granted a Lift of it
    /// than the policy asks for. None of its orders is live then.
    fn is_killed(&self, account: AccountName) -> bool
        ensures killed { result
            ≡ is_killed (state self.now).policy (state self.now).records account }
        ensures no_orders { IsTrue result
            → HasNoOrders (state self.now).policy (state self.now).records account };

    /// The line that the user is logged in on; None where he is not.
    fn on(&self, user: UserName) -> Option<u16>
        ensures { result ≡ line_of (state self.now).records user };

    /// Whether the policy has this user.
    fn knows(&self, user: UserName) -> bool
        ensures { result ≡ is_some (user_in (state self.now).policy.users user) };

    /// The records from this number on, 0 counting as 1, and at most so many.
    fn records(&self, from: u64, most: u64) -> Result<Vec<Record>, OutOfMemory>
        ensures { IfOk result (λ v. v.items ≡ slice (state self.now).records from most) };

    /// The user's reports from this number on, 0 counting as 1, and at most so many. A reader's are the drop copies of
    /// the fills of accounts that were his before the fill.
    fn reports(&self, user: UserName, from: u64, most: u64) -> Result<Pulled, OutOfMemory>
        ensures reports { IfOk result (λ p.
            p.reports ≡ slice (stream_of (state self.now) user) from most) }
        ensures copies { IfOk result (λ p. IsTrue (reads (state self.now) user)
            → p.reports ≡ slice (reader_copies (state self.now) user) from most) }
        ensures next { IfOk result (λ p. p.next ≡ max 1 from + length p.reports) }
        ensures ended { IfOk result (λ p. p.ended ≡ ends_before (state self.now) user p.next) };

    /// Puts what `reports` gives into this list, in place of what stands there, and answers how far that is. The list's
    /// room is kept from pull to pull.
    ///
    /// The user is looked for at this place of the policy's users first, and the answer says where he stands, for the next
    /// pull. Nothing but time rests on it: any place is right, 0 where none is known.
    fn put_reports(
        &self,
        user: UserName,
        near: usize,
        from: u64,
        most: u64,
        list: &mut Vec<Report>,
    ) -> Result<Reached, OutOfMemory>
        ensures reports { OnOk result
            (list.new.items ≡ slice (stream_of (state self.now) user) from most) }
        ensures copies { OnOk result (IsTrue (reads (state self.now) user)
            → list.new.items ≡ slice (reader_copies (state self.now) user) from most) }
        ensures next { IfOk result (λ r. r.next ≡ max 1 from + length list.new.items) }
        ensures ended { IfOk result (λ r. r.ended ≡ ends_before (state self.now) user r.next) };

    /// The request of a login: whether the password is the user's and the session is the gate's, and the number of
    /// the first report that is wanted, 0 for the last.
    ///
    /// User and password are compared in upper case, the session without the spaces around it; a blank session
    /// means the gate's.
    fn login_request(
        &self,
        user: UserName,
        password: Password,
        session: SessionName,
        wanted: u64,
    ) -> Request
        ensures { result ≡ login_of (state self.now) user password session wanted };

    /// What a login is told after its step, which had this verdict: the gate's session and the number of the next
    /// report that is sent, or the reason of its denial.
    fn login_answer(&self, user: UserName, wanted: u64, verdict: Verdict) -> LoginAnswer
        ensures { result
            ≡ login_answered (state self.now).policy (state self.now).records
            user wanted verdict };
}
