//! The accounts of one reader.

ghost use Rattle.std.specs.Prelude.{◌≡◌, ◌<◌, [], ◌∷◌, ◌++◌, length, filter, not, IfOk};
ghost use Rattle.gx_units.specs.Names.{same_account};
ghost use Rattle.gx_policy.specs.People.{names_account};
ghost use Rattle.gx_people.specs.Entitled.{account_limit};

use gx_units::{AccountName, OutOfMemory};
use std::alloc::Global;
use std::marker::Model;

/// As many accounts as a policy may have.
const ACCOUNT_LIMIT: usize = 64;

/// The accounts of a reader, in the order in which they became his, with room for as many as a
/// policy may have.
#[derive(Drop)]
pub(crate) struct ReaderAccounts {
    names: Vec<AccountName>,
}

impl Model for ReaderAccounts {
    ghost use Rattle.std.specs.Prelude.{◌≤◌, List, vec_capacity};
    ghost use Rattle.gx_units.specs.declared.names.AccountName.{AccountName};
    ghost use Rattle.gx_people.specs.Entitled.{account_limit};

    ghost Value = { List AccountName };

    ghost view = { λ a. a.names.items };

    ghost invariant = { λ a. account_limit ≤ vec_capacity a.names };
}

impl ReaderAccounts {
    /// These accounts. Takes memory for as many as a policy may have.
    pub(crate) fn of(alloc: Global, accounts: &[AccountName]) -> Result<ReaderAccounts, OutOfMemory>
        ensures { IfOk result (λ his. his ≡ accounts.now) }
    {
        let mut names = Vec::with_capacity(alloc, ACCOUNT_LIMIT)?;
        names.extend_from_slice(accounts)?;
        Ok(ReaderAccounts { names })
    }

    /// Whether the account is among them.
    pub(crate) fn contains(&self, account: AccountName) -> bool
        ensures { result ≡ names_account self.now account }
    {
        self.names.as_slice().iter().any(|name| *name == account)
    }

    /// Puts the account last. Takes no memory.
    pub(crate) fn push(&mut self, account: AccountName)
        requires room { length self.old < account_limit }
        ensures { self.new ≡ self.old ++ account ∷ [] }
    {
        self.names.push_reserved(account);
    }

    /// Takes the account out, and keeps its room.
    pub(crate) fn remove(&mut self, account: AccountName)
        ensures { self.new ≡ filter (λ name. not (same_account name account)) self.old }
    {
        self.names.retain(|name| *name != account);
    }
}
