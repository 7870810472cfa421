//! The names of a policy that are asked for.

ghost use Rattle.std.specs.Prelude.{◌≡◌};
ghost use Rattle.gx_show.specs.Naming.{account_in, is_rule, rule_known, stock_in, user_known};

use gx_policy::{Policy, is_built_in};
use gx_units::{AccountName, RuleId, Symbol, UserName, padded};

/// The account of the policy that the text names, byte for byte.
pub fn account_in(policy: &Policy, text: &[u8]) -> Option<AccountName>
    ensures { result ≡ account_in policy.now text.now }
{
    let bytes = padded(text)?;
    let name = AccountName { bytes };
    if policy.account(name).is_some() {
        Some(name)
    } else {
        None
    }
}

/// The stock of the policy that the text names, byte for byte.
pub fn stock_in(policy: &Policy, text: &[u8]) -> Option<Symbol>
    ensures { result ≡ stock_in policy.now text.now }
{
    let bytes = padded(text)?;
    let name = Symbol { bytes };
    if policy.stock(name).is_some() {
        Some(name)
    } else {
        None
    }
}

/// The user of the policy that the text names, in upper case or not.
pub fn user_known(policy: &Policy, text: &[u8]) -> Option<UserName>
    ensures { result ≡ user_known policy.now text.now }
{
    let bytes = padded(text)?;
    let user = policy.user(UserName { bytes }.folded())?;
    Some(user.name)
}

/// Whether the rule is one of the policy, or a built-in one.
fn is_rule(policy: &Policy, rule: RuleId) -> bool
    ensures { result ≡ is_rule policy.now rule }
{
    is_built_in(rule) || policy.rule(rule).is_some()
}

/// The rule that the text names, byte for byte: one of the policy, or a built-in one.
pub fn rule_known(policy: &Policy, text: &[u8]) -> Option<RuleId>
    ensures { result ≡ rule_known policy.now text.now }
{
    let rule = RuleId {
        bytes: padded(text)?,
    };
    if is_rule(policy, rule) {
        Some(rule)
    } else {
        None
    }
}
