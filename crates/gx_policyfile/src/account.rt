//! The file's accounts.

ghost use Rattle.std.specs.Prelude.{map};
ghost use Rattle.toml.specs.View.{table_view};
ghost use Rattle.gx_units.specs.Names.{same_account};
ghost use Rattle.gx_policyfile.specs.Policies.{account, accounts};
ghost use Rattle.gx_policyvalues.specs.Field.{Gives};

use crate::place::{Entry, entries};
use crate::version::FileVersion;
use gx_policy::{Account, Stock};
use gx_policyvalues::{Letters, PolicyFault, field};
use gx_units::{AccountName, Firm};
use std::alloc::Global;
use toml::Table;

#[tactic(auto, unfolding(crate::specs::Policies::account))]
fn account(entry: &Table) -> Result<Account, PolicyFault>
    ensures { Gives (λ a. a) result (account (table_view entry.now)) }
{
    field::only_keys(entry, &["name", "firm"])?;
    let name = field::field_at(entry, "name", Letters::Plain)?;
    let firm = field::field_at(entry, "firm", Letters::Plain)?;
    Ok(Account {
        name: AccountName { bytes: name },
        firm: Firm { bytes: firm },
    })
}

impl Entry for Account {
    ghost meant = { λ _ _ _ entry. account entry };

    ghost is_same = { λ a b. same_account a.name b.name };

    fn read(
        _alloc: Global,
        _version: FileVersion,
        _accounts: &[Account],
        _stocks: &[Stock],
        entry: &Table,
    ) -> Result<Account, PolicyFault> {
        account(entry)
    }

    fn is_same(&self, other: &Account) -> bool {
        self.name == other.name
    }
}

/// The accounts of the file, in its order.
///
/// # Errors
///
/// The first fault of the entries, or that memory was refused.
#[tactic(auto, unfolding(crate::specs::Policies::accounts))]
pub fn accounts(
    alloc: Global,
    version: FileVersion,
    tables: &[&Table],
) -> Result<Vec<Account>, PolicyFault>
    ensures { Gives (λ v. v.items) result (accounts (map (λ t. table_view t.now) tables.now)) }
{
    entries(alloc, "account", version, &[], &[], 64, tables)
}
