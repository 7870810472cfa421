//! What the rules ask about an officer's command.

ghost use Rattle.std.specs.{Prelude.{◌≡◌, ◌||◌, not}, List.list_all};
ghost use Rattle.gx_history.specs.Asking.{are_his, changes, has_limit, knows_names, rule_in_force, sees_now};
ghost use Rattle.gx_policy.specs.People.{role_in};
ghost use Rattle.gx_people.specs.Entitled.{holds_account};
ghost use Rattle.gx_rules.specs.Settings.{covers_in};
ghost use Rattle.gx_core.specs.Known.{accounts_held, change_asked, has_concerned, is_his_or_not_its, names_known, power_held};

use crate::gate::Gate;
use gx_desk::{Action, WrittenName};
use gx_history::record::{Asked, Request};
use gx_people::People;
use gx_people::power::Power;
use gx_policy::Account;
use gx_rules::RuleBook;
use gx_units::{AccountName, RuleId, UserName};

/// What the rules ask about a command.
#[derive(Clone, Copy)]
pub(crate) struct CommandFacts {
    pub(crate) names_are_known: bool,
    pub(crate) has_power: bool,
    pub(crate) accounts_are_his: bool,
    pub(crate) would_change: bool,
}

/// What is said of requests that are no commands.
const NO_COMMAND: CommandFacts = CommandFacts {
    names_are_known: true,
    has_power: true,
    accounts_are_his: true,
    would_change: true,
};

/// Whether each of the accounts that the rule is for is the officer's.
fn are_its_accounts_his(
    rules: &RuleBook,
    people: &People,
    officer: UserName,
    rule: RuleId,
    accounts: &[Account],
) -> bool
    ensures { result ≡ list_all (λ a.
        not (covers_in rules.now rule a.name) || holds_account people.now officer a.name) accounts.now }
{
    accounts.iter().all(|a| !rules.covers(rule, a.name) || people.holds(officer, a.name))
}

impl Gate {
    /// Whether the names in a command are known, and its rule has the setting.
    #[tactic(auto, using(crate::proofs::Command_call::limits_are_known, crate::proofs::Command_call::lists_are_known, crate::proofs::Command_call::readers_are_known))]
    fn knows_names(&self, action: &Action) -> bool
        ensures { result ≡ knows_names self.now.policy self.now.records action.now }
    {
        let policy = &self.policy;
        let rules = &self.state.rules;
        let people = &self.state.people;
        match *action {
            Action::Kill(account) | Action::Lift(account) => { policy.account(account).is_some() }
            Action::SetLimit(rule, _) => rules.limit(rule).is_some(),
            Action::Restrict(rule, stock) | Action::Unrestrict(rule, stock) => {
                rules.has_list(rule) && policy.stock(stock).is_some()
            }
            Action::Grant(reader, account) | Action::Revoke(reader, account) => {
                people.reader_named(reader).is_some() && policy.account(account).is_some()
            }
            Action::CloseDay => true,
        }
    }

    /// Whether each account that the rule is for is the officer's.
    fn holds_rule(&self, officer: UserName, rule: RuleId) -> bool
        ensures { result ≡ list_all
            (is_his_or_not_its self.now (role_in self.now.policy.users officer) rule)
            self.now.policy.accounts }
    {
        let state = &self.state;
        are_its_accounts_his(
            &state.rules,
            &state.people,
            officer,
            rule,
            self.policy.accounts(),
        )
    }

    /// Whether an officer has the accounts that a command concerns: the one that it names, or all that its rule is
    /// for.
    #[tactic(auto, using(crate::proofs::Facts_call::scopes_are_known))]
    fn has_concerned(&self, officer: UserName, action: &Action) -> bool
        ensures { result ≡ has_concerned self.now
            (role_in self.now.policy.users officer) action.now }
    {
        let people = &self.state.people;
        match *action {
            Action::Kill(account) | Action::Lift(account) => people.holds(officer, account),
            Action::SetLimit(rule, _) => self.holds_rule(officer, rule),
            Action::Restrict(rule, _) | Action::Unrestrict(rule, _) => {
                self.holds_rule(officer, rule)
            }
            Action::Grant(_, account) | Action::Revoke(_, account) => {
                people.holds(officer, account)
            }
            Action::CloseDay => true,
        }
    }

    /// Whether the user is an officer who has the accounts that the command concerns.
    fn holds_accounts(&self, officer: UserName, action: &Action) -> bool
        ensures { result ≡ are_his self.now.policy self.now.records
            (role_in self.now.policy.users officer) action.now }
    {
        self.state.people.is_officer(officer, 0) && self.has_concerned(officer, action)
    }

    /// Whether the reader whom an officer names sees the account's fills from now on.
    fn shows(&self, reader: WrittenName, account: AccountName) -> bool
        ensures { result ≡ sees_now self.now.policy self.now.records reader account }
    {
        // that the policy is sound, which what readers see rests on
        let _ = self.policy.rules();
        match self.state.people.reader_named(reader) {
            Some(name) => self.state.people.sees(name, account),
            None => false,
        }
    }

    /// Whether the rule has this very limit.
    #[tactic(auto, using(crate::proofs::Command_call::limit_is_known))]
    fn has_limit(&self, rule: RuleId, limit: u64) -> bool
        ensures { result ≡ has_limit (rule_in_force self.now.policy self.now.records rule) limit }
    {
        self.state.rules.limit(rule) == Some(limit)
    }

    /// Whether a command would change anything.
    #[tactic(auto, using(crate::proofs::Command_call::stock_is_listed, crate::proofs::Facts_call::the_kill_is_known))]
    fn would_change(&self, officer: UserName, action: &Action) -> bool
        ensures { result ≡ changes self.now.policy self.now.records officer action.now }
    {
        let rules = &self.state.rules;
        let status = &self.state.status;
        match *action {
            Action::Kill(account) => status.kill_changes(account),
            Action::Lift(account) => status.lift_changes(account, officer),
            Action::SetLimit(rule, limit) => !self.has_limit(rule, limit),
            Action::Restrict(rule, stock) => !rules.lists(rule, stock),
            Action::Unrestrict(rule, stock) => rules.lists(rule, stock),
            Action::Grant(reader, account) => !self.shows(reader, account),
            Action::Revoke(reader, account) => self.shows(reader, account),
            Action::CloseDay => !self.is_closed(),
        }
    }

    /// What the rules ask about a command; true of any other request.
    #[tactic(auto, using(crate::proofs::Facts_call::powers_are_known))]
    pub(crate) fn command_facts(&self, a: &Asked) -> CommandFacts
        ensures names { result.names_are_known ≡ names_known self.now a.now }
        ensures power { result.has_power ≡ power_held self.now a.now }
        ensures his { result.accounts_are_his ≡ accounts_held self.now a.now }
        ensures changes { result.would_change ≡ change_asked self.now a.now }
    {
        let Request::Command(c) = &a.request else {
            return NO_COMMAND;
        };
        CommandFacts {
            names_are_known: self.knows_names(&c.action),
            has_power: self.state.people.has(a.user, Power::of(&c.action)),
            accounts_are_his: self.holds_accounts(a.user, &c.action),
            would_change: self.would_change(a.user, &c.action),
        }
    }
}
