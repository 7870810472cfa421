//! The file's stocks.

ghost use Rattle.std.specs.Prelude.{map};
ghost use Rattle.toml.specs.View.{table_view};
ghost use Rattle.gx_units.specs.Names.{same_stock};
ghost use Rattle.gx_policyfile.specs.Policies.{stock, stocks};
ghost use Rattle.gx_policyvalues.specs.Field.{Gives};

use crate::place::{Entry, entries};
use crate::version::FileVersion;
use gx_policy::{Account, Stock};
use gx_policyvalues::{Letters, PolicyFault, field};
use gx_units::Symbol;
use std::alloc::Global;
use toml::Table;

#[tactic(auto, unfolding(crate::specs::Policies::stock))]
fn stock(entry: &Table) -> Result<Stock, PolicyFault>
    ensures { Gives (λ s. s) result (stock (table_view entry.now)) }
{
    field::only_keys(entry, &["name", "reference"])?;
    let name = field::field_at(entry, "name", Letters::Visible)?;
    let reference = field::number_at(entry, "reference", 1, 1_999_999_900)?;
    Ok(Stock {
        name: Symbol { bytes: name },
        reference: reference as u32,
    })
}

impl Entry for Stock {
    ghost meant = { λ _ _ _ entry. stock entry };

    ghost is_same = { λ a b. same_stock a.name b.name };

    fn read(
        _alloc: Global,
        _version: FileVersion,
        _accounts: &[Account],
        _stocks: &[Stock],
        entry: &Table,
    ) -> Result<Stock, PolicyFault> {
        stock(entry)
    }

    fn is_same(&self, other: &Stock) -> bool {
        self.name == other.name
    }
}

/// The stocks of the file, in its order.
///
/// # Errors
///
/// The first fault of the entries, or that memory was refused.
#[tactic(auto, unfolding(crate::specs::Policies::stocks))]
pub fn stocks(
    alloc: Global,
    version: FileVersion,
    tables: &[&Table],
) -> Result<Vec<Stock>, PolicyFault>
    ensures { Gives (λ v. v.items) result (stocks (map (λ t. table_view t.now) tables.now)) }
{
    entries(alloc, "stock", version, &[], &[], 1024, tables)
}
