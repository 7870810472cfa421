//! What is asked for by names, as texts.

ghost use Rattle.std.specs.Prelude.{◌≡◌, IfOk, IfErr, Some, None, option_copied};
ghost use Rattle.gx_show.specs.declared.asking.UnknownName.TheVariants as unknown;
ghost use Rattle.gx_show.specs.{Naming.{account_in, rule_known, stock_in, user_known}, Asking.{IsNamed, IsUnknown}};

use crate::choice::Choice;
use crate::naming::{account_in, rule_known, stock_in, user_known};
use gx_policy::Policy;
use gx_units::{AccountName, RuleId, Symbol, UserName, padded, unpadded};

/// Names that are asked for, as texts. A user's may be in upper case or not, all others are as the policy has them.
#[derive(Clone, Copy)]
pub struct AskedNames<'a> {
    /// The name of an account.
    pub account: Option<&'a str>,
    /// The name of a user.
    pub user: Option<&'a str>,
    /// The name of a stock.
    pub stock: Option<&'a str>,
    /// The name of a rule.
    pub rule: Option<&'a str>,
}

/// What a name that is asked for is not known as.
#[derive(Clone, Copy, PartialEq, Eq)]
pub enum UnknownName {
    /// As an account of the policy.
    Account,
    /// As a user of the policy.
    User,
    /// As a stock of the policy.
    Stock,
    /// As a rule, of the policy file or built in.
    Rule,
}

/// The account of this name, if one is asked for.
fn asked_account(policy: &Policy, text: Option<&str>) -> Result<Option<AccountName>, UnknownName>
    ensures named { IfOk result (λ found.
        IsNamed (account_in policy.now) (option_copied text.entry) found) }
    ensures unknown { IfErr result (λ e.
        IsUnknown (account_in policy.now) (option_copied text.entry) × (e ≡ unknown.Account)) }
{
    let Some(text) = text else {
        return Ok(None);
    };
    match account_in(policy, text.as_bytes()) {
        Some(name) => Ok(Some(name)),
        None => Err(UnknownName::Account),
    }
}

/// The user of this name, if one is asked for.
fn asked_user(policy: &Policy, text: Option<&str>) -> Result<Option<UserName>, UnknownName>
    ensures named { IfOk result (λ found.
        IsNamed (user_known policy.now) (option_copied text.entry) found) }
    ensures unknown { IfErr result (λ e.
        IsUnknown (user_known policy.now) (option_copied text.entry) × (e ≡ unknown.User)) }
{
    let Some(text) = text else {
        return Ok(None);
    };
    match user_known(policy, text.as_bytes()) {
        Some(name) => Ok(Some(name)),
        None => Err(UnknownName::User),
    }
}

/// The stock of this name, if one is asked for.
fn asked_stock(policy: &Policy, text: Option<&str>) -> Result<Option<Symbol>, UnknownName>
    ensures named { IfOk result (λ found.
        IsNamed (stock_in policy.now) (option_copied text.entry) found) }
    ensures unknown { IfErr result (λ e.
        IsUnknown (stock_in policy.now) (option_copied text.entry) × (e ≡ unknown.Stock)) }
{
    let Some(text) = text else {
        return Ok(None);
    };
    match stock_in(policy, text.as_bytes()) {
        Some(name) => Ok(Some(name)),
        None => Err(UnknownName::Stock),
    }
}

/// The rule of this name, if one is asked for.
fn asked_rule(policy: &Policy, text: Option<&str>) -> Result<Option<RuleId>, UnknownName>
    ensures named { IfOk result (λ found.
        IsNamed (rule_known policy.now) (option_copied text.entry) found) }
    ensures unknown { IfErr result (λ e.
        IsUnknown (rule_known policy.now) (option_copied text.entry) × (e ≡ unknown.Rule)) }
{
    let Some(text) = text else {
        return Ok(None);
    };
    match rule_known(policy, text.as_bytes()) {
        Some(name) => Ok(Some(name)),
        None => Err(UnknownName::Rule),
    }
}

/// The name in upper case, if it has at most eight bytes.
fn in_capitals(name: &str) -> Option<[u8; 8]> {
    let mut bytes = padded(name.as_bytes())?;
    bytes.make_ascii_uppercase();
    Some(bytes)
}

/// Whether the policy has what is asked for under the name in upper case.
pub fn is_known_in_capitals(policy: &Policy, asked_as: UnknownName, name: &str) -> bool {
    let Some(bytes) = in_capitals(name) else {
        return false;
    };
    let name = unpadded(&bytes);
    match asked_as {
        UnknownName::Account => account_in(policy, name).is_some(),
        UnknownName::Stock => stock_in(policy, name).is_some(),
        UnknownName::Rule => rule_known(policy, name).is_some(),
        UnknownName::User => false,
    }
}

/// What is asked for by these names, and by all else as it stands in the choice.
///
/// # Errors
///
/// The first of account, user, stock and rule that is asked for and that the policy has not.
pub fn choice_of(policy: &Policy, names: &AskedNames, rest: &Choice) -> Result<Choice, UnknownName>
    ensures account { IfOk result (λ c.
        IsNamed (account_in policy.now) (option_copied names.now.account) c.account) }
    ensures user { IfOk result (λ c.
        IsNamed (user_known policy.now) (option_copied names.now.user) c.user) }
    ensures stock { IfOk result (λ c.
        IsNamed (stock_in policy.now) (option_copied names.now.stock) c.stock) }
    ensures rule { IfOk result (λ c.
        IsNamed (rule_known policy.now) (option_copied names.now.rule) c.rule) }
    ensures rest { IfOk result (λ c. record c {
      account = rest.now.account;
      user = rest.now.user;
      stock = rest.now.stock;
      rule = rest.now.rule;
    } ≡ rest.now) }
    ensures no_account { IfErr result (λ e. e ≡ unknown.Account
        → IsUnknown (account_in policy.now) (option_copied names.now.account)) }
    ensures no_user { IfErr result (λ e. e ≡ unknown.User
        → IsUnknown (user_known policy.now) (option_copied names.now.user)) }
    ensures no_stock { IfErr result (λ e. e ≡ unknown.Stock
        → IsUnknown (stock_in policy.now) (option_copied names.now.stock)) }
    ensures no_rule { IfErr result (λ e. e ≡ unknown.Rule
        → IsUnknown (rule_known policy.now) (option_copied names.now.rule)) }
{
    Ok(Choice {
        account: asked_account(policy, names.account)?,
        user: asked_user(policy, names.user)?,
        stock: asked_stock(policy, names.stock)?,
        rule: asked_rule(policy, names.rule)?,
        ..*rest
    })
}
