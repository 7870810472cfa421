//! A request judged on what the gate keeps of its records.

ghost use Rattle.std.specs.Prelude.{◌≡◌, ◌<◌, is_some, length, IsTrue, None, Some};
ghost use Rattle.gx_history.specs.declared.record.Step.TheVariants as steps;
ghost use Rattle.gx_history.specs.{Asking.{facts, fits_role, has_power, is_on_line, knows_user, lists_its_stock}, InForce.{is_killed, line_of}, Showing.{answers, is_askable, is_showable}, Verdicts.{facts_now, moment_of, next, verdict}};
ghost use Rattle.gx_policy.specs.People.{account_of, role_in};
ghost use Rattle.gx_access_gate.specs.{Gates.left_by, Steps.{next_of, verdict_of}, Reports.stream_of};
ghost use Rattle.gx_core.specs.Known.{has_used, is_available_after, order_asked, with_target_order};

use crate::gate::Gate;
use gx_access_gate::{AccessGate, Outcome};
use gx_decide::decide;
use gx_desk::Action;
use gx_gate_state::listed::fits_firm;
use gx_history::facts::Facts;
use gx_history::live_order::LiveOrder;
use gx_history::record::{Asked, Request, Verdict};
use gx_index::Near;
use gx_orders::request_tokens::{named_token, new_token};
use gx_people::power::Power;
use gx_units::{AccountName, Moment, UserName};

/// Facts of which none holds. Those of a request are put into it one by one: a value of a struct that is written whole is
/// copied, with all the room of the order that it may name.
const NO_FACTS: Facts = Facts {
    may_log_in: false,
    is_logged_in: false,
    session_is_available: false,
    is_on_this_line: false,
    role_fits: false,
    token_is_used: false,
    target_order: None,
    day_is_closed: false,
    account_is_killed: false,
    firm_fits: false,
    stock_is_listed: false,
    names_are_known: false,
    has_power: false,
    accounts_are_his: false,
    would_change: false,
    account: None,
    moment: 0,
};

fn is_on_line(on: Option<u16>, line: u16) -> bool
    ensures { result ≡ is_on_line on line }
{
    on == Some(line)
}

impl Gate {
    /// Whether a Login's user is in the policy, and its password is right.
    #[tactic(auto, using(crate::proofs::Facts_call::users_are_known))]
    fn knows_who_asks(&self, a: &Asked) -> bool
        ensures { result ≡ knows_user self.now.policy a.now.user a.now.request }
    {
        match &a.request {
            Request::Login(m) => m.password_is_right && self.state.people.knows(a.user),
            _ => true,
        }
    }

    /// Whether a Login's session name is right, and the report that it asks for is there or comes next.
    fn is_available(&self, a: &Asked) -> bool
        ensures { result
            ≡ is_available_after (length (stream_of self.now a.now.user)) a.now.request }
    {
        match &a.request {
            Request::Login(m) => {
                m.session_is_right && (m.wanted <= 1 || m.wanted - 1 <= self.count_reports(a.user))
            }
            _ => true,
        }
    }

    /// Whether orders are asked for by a trader, and commands by an officer; this is the account that the user trades for,
    /// if he trades.
    #[tactic(auto, using(crate::proofs::Facts_call::traders_have_accounts, crate::proofs::Facts_call::officers_are_known))]
    fn fits_role(&self, a: &Asked, account: Option<AccountName>) -> bool
        requires account { account ≡ account_of self.now.policy a.now.user }
        ensures fits { result
            ≡ fits_role (role_in self.now.policy.users a.now.user) a.now.request }
    {
        match &a.request {
            Request::Enter(_) | Request::Replace(_) | Request::Cancel(_) => account.is_some(),
            Request::Command(_) => self.state.people.is_officer(a.user, 0),
            _ => true,
        }
    }

    /// Whether an Enter's stock is listed; true for any other request.
    #[tactic(auto, using(crate::proofs::Facts_call::stocks_are_known))]
    fn lists_its_stock(&self, request: &Request, near: usize) -> bool
        ensures { result ≡ lists_its_stock self.now.policy request.now }
    {
        match request {
            Request::Enter(m) => self.state.book.lists(m.stock, near),
            _ => true,
        }
    }

    /// The account that the user trades for, if he trades.
    #[tactic(auto, using(crate::proofs::Facts_call::accounts_are_known))]
    fn account_of(&self, user: UserName, near: usize) -> Option<AccountName>
        ensures { result ≡ account_of self.now.policy user }
    {
        self.state.people.account_near(user, near)
    }

    /// The line that the user is logged in on.
    #[tactic(auto, using(crate::proofs::Facts_call::line_is_known))]
    fn line_near(&self, user: UserName, near: usize) -> Option<u16>
        ensures { result ≡ line_of self.now.records user }
    {
        self.state.status.line_of(user, near)
    }

    /// Whether the account is killed.
    #[tactic(auto, using(crate::proofs::Facts_call::kill_is_known))]
    fn is_killed_near(&self, account: AccountName, near: usize) -> bool
        ensures { result ≡ is_killed self.now.policy self.now.records account }
    {
        self.state.status.is_killed(account, near)
    }

    /// Whether the request's new token was used before by its user.
    #[tactic(auto, using(crate::proofs::Facts_call::tokens_are_known))]
    fn token_is_used(&self, a: &Asked) -> bool
        ensures { result ≡ has_used self.now a.now }
    {
        new_token(&a.request).is_some_and(|token| self.state.orders.is_used(a.user, token))
    }

    /// The live order that a Replace or a Cancel names.
    #[inline(always)]
    #[tactic(auto, using(crate::proofs::Facts_call::named_is_known))]
    fn order_named(&self, a: &Asked) -> Option<LiveOrder>
        ensures { result ≡ order_asked self.now a.now }
    {
        self.state.orders.under(a.user, named_token(&a.request)?)
    }

    /// The moment of the record that the request leaves: that handed in, or that of the record before where it is later.
    fn moment_of(&self, a: &Asked) -> Moment
        ensures { result ≡ moment_of self.now.records (steps.Asked a.now) }
    {
        a.handed.max(self.last_moment())
    }

    /// What the rules ask of the records, for a request at the moment of its record, but for the order that it names. Its
    /// names are looked for at these places first.
    #[tactic(auto, unfolding(gx_history::specs::Asking::facts))]
    pub(crate) fn facts_of(&self, a: &Asked, near: Near) -> Facts
        ensures told { with_target_order (order_asked self.now a.now) result
            ≡ facts_now self.now.policy self.now.records a.now }
        ensures none { result.target_order ≡ None }
        ensures account { result.account ≡ account_of self.now.policy a.now.user }
        ensures moment { result.moment ≡ moment_of self.now.records (steps.Asked a.now) }
    {
        let account = self.account_of(a.user, near.user);
        let on = self.line_near(a.user, near.user);
        let command = self.command_facts(a);
        let mut known = NO_FACTS;
        known.may_log_in = self.knows_who_asks(a);
        known.is_logged_in = on.is_some();
        known.session_is_available = self.is_available(a);
        known.is_on_this_line = is_on_line(on, a.line);
        known.role_fits = self.fits_role(a, account);
        known.token_is_used = self.token_is_used(a);
        known.day_is_closed = self.is_closed();
        known.account_is_killed = account.is_some_and(|name| self.is_killed_near(
            name,
            near.account,
        ));
        known.firm_fits = fits_firm(&self.policy, account, near.account, &a.request);
        known.stock_is_listed = self.lists_its_stock(&a.request, near.stock);
        known.names_are_known = command.names_are_known;
        known.has_power = command.has_power;
        known.accounts_are_his = command.accounts_are_his;
        known.would_change = command.would_change;
        known.account = account;
        known.moment = self.moment_of(a);
        known
    }

    /// Puts the order that the request names to the facts, which have none. One that is returned with them would be copied
    /// from place to place on the way.
    pub(crate) fn put_target_order(&self, a: &Asked, known: &mut Facts)
        requires told { with_target_order (order_asked self.now a.now) known.old
            ≡ facts_now self.now.policy self.now.records a.now }
        requires none { known.old.target_order ≡ None }
        ensures told { known.new ≡ facts_now self.now.policy self.now.records a.now }
        ensures named { known.new.target_order ≡ order_asked self.now a.now }
        ensures account { known.new.account ≡ known.old.account }
        ensures moment { known.new.moment ≡ known.old.moment }
    {
        if let Some(order) = self.order_named(a) {
            known.target_order = Some(order);
        }
    }

    /// The verdict on a request, by what the rules ask: denied by the first rule of the written order that forbids it, and
    /// else granted.
    fn verdict(&self, a: &Asked, near: Near, known: &Facts) -> Verdict
        requires known { known.now ≡ facts_now self.now.policy self.now.records a.now }
        ensures verdict { result ≡ verdict_of self.now a.now }
        ensures shown { IsTrue (answers a.now.request result) }
    {
        // that the policy is sound, which `shown` rests on
        let _ = self.policy.rules();
        let state = &self.state;
        decide(&state.people, &state.rules, &state.ledger, known, near, a)
    }

    /// The number, the moment and the verdict of the record that the request leaves, by what the rules ask.
    #[tactic(auto, using(gx_laws::proofs::Requests_judged::next_in_parts))]
    pub(crate) fn judge(&self, a: &Asked, near: Near, known: &Facts) -> Outcome
        requires askable { IsTrue (is_askable a.now) }
        requires known { known.now ≡ facts_now self.now.policy self.now.records a.now }
        requires moment { known.now.moment ≡ moment_of self.now.records (steps.Asked a.now) }
        ensures next { next_of self.now a.now ≡ Some (left_by a.now result) }
        ensures verdict { result.verdict ≡ verdict_of self.now a.now }
        ensures shown { IsTrue (is_showable (left_by a.now result)) }
    {
        Outcome {
            number: self.length() + 1,
            moment: known.moment,
            verdict: self.verdict(a, near, known),
        }
    }
}
