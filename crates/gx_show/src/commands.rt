//! Which commands concern an account, a stock or a rule.

ghost use Rattle.std.specs.Prelude.{◌≡◌};
ghost use Rattle.gx_history.specs.Requests.{action_of};
ghost use Rattle.gx_show.specs.Choosing.{acts_on, is_on_rule, lists, rule_covers};

use gx_desk::Action;
use gx_history::record::Request;
use gx_policy::Policy;
use gx_units::{AccountName, RuleId, Symbol};

/// What an officer asks for.
pub(crate) fn action_of(request: &Request) -> Option<Action>
    ensures { result ≡ action_of request.now }
{
    match request {
        Request::Command(command) => Some(command.action),
        _ => None,
    }
}

/// Whether the policy's rule of this name is for orders of the account.
fn rule_covers(policy: &Policy, account: AccountName, name: RuleId) -> bool
    ensures { result ≡ rule_covers policy.now account name }
{
    match policy.rule(name) {
        Some(rule) => rule.scope.covers(account),
        None => false,
    }
}

/// Whether the command names the account, is on a rule that covers it, or closes the day.
pub(crate) fn acts_on(policy: &Policy, account: AccountName, action: &Action) -> bool
    ensures { result ≡ acts_on policy.now account action.now }
{
    match action {
        Action::Kill(named) | Action::Lift(named) => *named == account,
        Action::Grant(_, named) | Action::Revoke(_, named) => *named == account,
        Action::SetLimit(rule, _) => rule_covers(policy, account, *rule),
        Action::Restrict(rule, _) | Action::Unrestrict(rule, _) => {
            rule_covers(policy, account, *rule)
        }
        Action::CloseDay => true,
    }
}

/// Whether the command puts the stock on a list, or takes it off.
pub(crate) fn lists(stock: Symbol, action: &Action) -> bool
    ensures { result ≡ lists stock action.now }
{
    match action {
        Action::Restrict(_, named) | Action::Unrestrict(_, named) => *named == stock,
        _ => false,
    }
}

/// Whether the command is on the rule.
pub(crate) fn is_on_rule(rule: RuleId, action: &Action) -> bool
    ensures { result ≡ is_on_rule rule action.now }
{
    match action {
        Action::SetLimit(named, _) => *named == rule,
        Action::Restrict(named, _) | Action::Unrestrict(named, _) => *named == rule,
        _ => false,
    }
}
