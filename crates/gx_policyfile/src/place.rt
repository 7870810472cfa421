//! A place of several entries: an array of tables.

ghost use Rattle.std.specs.Prelude.{◌≡◌, [], map, false};
ghost use Rattle.toml.specs.View.{table_view};
ghost use Rattle.gx_policyvalues.specs.Field.{Gives, is_memory};
ghost use Rattle.gx_policyfile.specs.Place.{is_taken, next, each, place_of};

use crate::version::FileVersion;
use gx_policy::{Account, Stock};
use gx_policytext::find;
use gx_policyvalues::{Allowed, EntryPlace, FaultKind, PolicyFault};
use std::alloc::{AllocError, Global};
use toml::Table;

/// What the name of an entry allows, once it is spelled as it may be.
const ANOTHER_NAME: Allowed = Allowed::Words("a name that no entry before it has");

/// What an array of tables holds.
pub trait Entry: Drop + Sized {
    ghost use Rattle.std.specs.Prelude.{Bool, Result, List};
    ghost use Rattle.toml.specs.Data.{Members};
    ghost use Rattle.gx_policy.specs.declared.policy.Account.{Account};
    ghost use Rattle.gx_policy.specs.declared.policy.Stock.{Stock};
    ghost use Rattle.gx_policyvalues.specs.declared.fault.FaultKind.{FaultKind};
    ghost use Rattle.gx_policyfile.specs.declared.version.FileVersion.{FileVersion};

    /// What a table means in a file of the version, beside the file's accounts and stocks.
    ghost meant: { FileVersion → List Account → List Stock → Members → Result Self FaultKind };

    /// The two have one name.
    ghost is_same: { Self → Self → Bool };

    /// Reads a table. The fault is the first that the table has, or that memory was refused.
    fn read(
        alloc: Global,
        version: FileVersion,
        accounts: &[Account],
        stocks: &[Stock],
        entry: &Table,
    ) -> Result<Self, PolicyFault>
        ensures { Gives (λ x. x) result
            (meant version accounts.now stocks.now (table_view entry.now)) };

    /// Whether the two have one name.
    fn is_same(&self, other: &Self) -> bool
        ensures { result ≡ is_same self.now other.now };
}

/// The name of an entry as it is written, where it is a string.
fn written_name(alloc: Global, entry: &Table) -> Result<Option<String>, AllocError> {
    match find(entry, "name") {
        Some(value) => match value.as_str() {
            Some(name) => Ok(Some(String::from_str(alloc, name)?)),
            None => Ok(None),
        },
        None => Ok(None),
    }
}

/// The fault within the entry of this place and number.
fn within(
    alloc: Global,
    fault: PolicyFault,
    place: &'static str,
    number: usize,
    entry: &Table,
) -> PolicyFault
    ensures { is_memory result.kind ≡ false → result.kind ≡ fault.kind }
{
    let fault = fault.with_value(alloc, entry);
    match written_name(alloc, entry) {
        Ok(name) => fault.within(EntryPlace {
            place,
            number,
            name,
        }),
        Err(_) => PolicyFault::memory(),
    }
}

#[tactic(auto, unfolding(crate::specs::Place::is_taken))]
fn is_among<E: Entry>(found: &[E], entry: &E) -> bool
    ensures { result ≡ is_taken E.is_same found.now entry.now }
{
    found.iter().any(|other| other.is_same(entry))
}

/// One more entry, named as none before it.
fn next<E: Entry>(
    alloc: Global,
    version: FileVersion,
    accounts: &[Account],
    stocks: &[Stock],
    found: &[E],
    entry: &Table,
) -> Result<E, PolicyFault>
    ensures { Gives (λ x. x) result
        (next E.is_same (E.meant version accounts.now stocks.now) found.now
        (table_view entry.now)) }
{
    let read = E::read(alloc, version, accounts, stocks, entry)?;
    if is_among(found, &read) {
        return Err(PolicyFault::at(FaultKind::DuplicateName, "name", ANOTHER_NAME));
    }
    Ok(read)
}

fn each<E: Entry>(
    alloc: Global,
    place: &'static str,
    version: FileVersion,
    accounts: &[Account],
    stocks: &[Stock],
    tables: &[&Table],
) -> Result<Vec<E>, PolicyFault>
    ensures { Gives (λ v. v.items) result
        (each E.is_same (E.meant version accounts.now stocks.now) []
        (map (λ t. table_view t.now) tables.now)) }
{
    let mut found = Vec::new(alloc);
    for table in tables {
        match next(alloc, version, accounts, stocks, &found, table) {
            Ok(entry) => found.push(entry)?,
            Err(fault) => return Err(within(
                alloc,
                fault,
                place,
                found.len().saturating_add(1),
                table,
            )),
        }
    }
    Ok(found)
}

/// The entries of a place, in the file's order.
///
/// # Errors
///
/// The first fault of the entries, or that memory was refused.
pub fn entries<E: Entry>(
    alloc: Global,
    place: &'static str,
    version: FileVersion,
    accounts: &[Account],
    stocks: &[Stock],
    most: usize,
    tables: &[&Table],
) -> Result<Vec<E>, PolicyFault>
    ensures { Gives (λ v. v.items) result
        (place_of most E.is_same (E.meant version accounts.now stocks.now)
        (map (λ t. table_view t.now) tables.now)) }
{
    if tables.len() > most {
        return Err(PolicyFault::at(FaultKind::TooMany, place, Allowed::Entries(most)));
    }
    each(alloc, place, version, accounts, stocks, tables)
}
