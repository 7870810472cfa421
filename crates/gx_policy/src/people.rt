//! What a policy says of a name: its user, account, stock or rule.

ghost use Rattle.std.specs.Prelude.{◌≡◌, option_copied};
ghost use Rattle.gx_policy.specs.People.{account_named, account_of, rule_in, stock_named, user_in};

use crate::policy::{Account, FileRule, Policy, Role, Stock, User};
use gx_units::{AccountName, RuleId, Symbol, UserName};

impl Policy {
    /// The user of this name.
    pub fn user(&self, name: UserName) -> Option<&User>
        ensures { option_copied result ≡ user_in self.now.users name }
    {
        self.users().iter().find(|user| user.name == name)
    }

    /// The account of this name.
    pub fn account(&self, name: AccountName) -> Option<Account>
        ensures { result ≡ account_named self.now name }
    {
        self.accounts()
            .iter()
            .copied()
            .find(|account| account.name == name)
    }

    /// The listed stock of this name.
    pub fn stock(&self, name: Symbol) -> Option<Stock>
        ensures { result ≡ stock_named self.now name }
    {
        self.stocks()
            .iter()
            .copied()
            .find(|stock| stock.name == name)
    }

    /// The file's rule of this name.
    pub fn rule(&self, name: RuleId) -> Option<&FileRule>
        ensures { option_copied result ≡ rule_in self.now.rules name }
    {
        self.rules().iter().find(|rule| rule.name == name)
    }

    /// The account that the user trades for, if he trades for one.
    pub fn account_of(&self, user: UserName) -> Option<AccountName>
        ensures { result ≡ account_of self.now user }
    {
        match self.user(user)?.role {
            Role::Trader(account) => Some(account),
            Role::Officer(..) | Role::Reader(_) => None,
        }
    }
}
