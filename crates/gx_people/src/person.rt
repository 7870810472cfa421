//! What the gate keeps of one user.

ghost use Rattle.std.specs.Prelude.{◌≡◌, IfOk, IsTrue, Some};
ghost use Rattle.gx_history.specs.InForce.{in_role};
ghost use Rattle.gx_policy.specs.People.{is_reader};
ghost use Rattle.gx_people.specs.{Entitled.{role_has_room, with_account, without_account}, View.role_of_current};

use crate::accounts::ReaderAccounts;
use gx_policy::{Powers, Role, Scope};
use gx_units::{AccountName, OutOfMemory, Password};
use std::alloc::Global;

/// A user without his name.
#[derive(Drop)]
pub(crate) struct Person {
    pub(crate) password: Password,
    pub(crate) standing: CurrentRole,
    /// Where the account that he trades for stands in the policy: it is looked for there first.
    pub(crate) near_account: usize,
}

/// What a user is now.
#[derive(Drop)]
pub(crate) enum CurrentRole {
    /// Enters orders for this account.
    Trader(AccountName),
    /// Gives commands, within his powers and his accounts.
    Officer(Powers, Scope),
    /// Is shown the fills of these accounts.
    Reader(ReaderAccounts),
}

impl CurrentRole {
    /// What the policy says that he is. Takes memory for a copy of it, and of a reader for as many accounts as a policy
    /// may have.
    pub(crate) fn of(alloc: Global, role: &Role) -> Result<CurrentRole, OutOfMemory>
        ensures { IfOk result (λ r. role_of_current r ≡ role.now) }
    {
        match role {
            Role::Trader(account) => Ok(CurrentRole::Trader(*account)),
            Role::Officer(powers, scope) => Ok(CurrentRole::Officer(*powers, scope.copied(alloc)?)),
            Role::Reader(names) => {
                let accounts = ReaderAccounts::of(alloc, names.as_slice())?;
                Ok(CurrentRole::Reader(accounts))
            }
        }
    }

    /// Whether he is a reader.
    pub(crate) fn is_reader(&self) -> bool
        ensures { result ≡ is_reader (Some (role_of_current self.now)) }
    {
        matches!(self, CurrentRole::Reader(_))
    }

    /// Whether he is a reader, and the account is his.
    pub(crate) fn sees(&self, account: AccountName) -> bool
        ensures { result ≡ in_role (role_of_current self.now) account }
    {
        match self {
            CurrentRole::Reader(accounts) => accounts.contains(account),
            _ => false,
        }
    }

    /// Gives a reader the account. Takes no memory.
    pub(crate) fn grant(&mut self, account: AccountName)
        requires room { IsTrue (role_has_room (role_of_current self.old) account) }
        ensures { role_of_current self.new ≡ with_account account (role_of_current self.old) }
    {
        if let CurrentRole::Reader(accounts) = self {
            if !accounts.contains(account) {
                accounts.push(account);
            }
        }
    }

    /// Takes the account from a reader.
    pub(crate) fn revoke(&mut self, account: AccountName)
        ensures { role_of_current self.new
            ≡ without_account account (role_of_current self.old) }
    {
        if let CurrentRole::Reader(accounts) = self {
            accounts.remove(account);
        }
    }
}
