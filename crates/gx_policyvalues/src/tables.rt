//! The entries of a place: an array of tables.

ghost use Rattle.std.specs.Prelude.{[], ◌∷◌, ◌++◌, map};
ghost use Rattle.toml.specs.View.{table_view, items_view};
ghost use Rattle.gx_policyvalues.specs.{Field.{Gives, each_item}, Tables.{tables_at, table}};

use crate::fault::{Allowed, FaultKind, PolicyFault};
use gx_policytext::find;
use std::alloc::Global;
use toml::{Table, Value};

/// What a key of several entries allows.
const TABLES: Allowed = Allowed::Words("an array of tables");

fn tables<'a>(
    alloc: Global,
    key: &'static str,
    values: &'a [Value],
) -> Result<Vec<&'a Table>, PolicyFault>
    ensures { Gives (λ v. map (λ t. table_view t.now) v.items) result
        (each_item table (λ found entry. found ++ entry ∷ []) [] (items_view values.now)) }
{
    let mut found = Vec::new(alloc);
    for value in values {
        match value.as_table() {
            Some(table) => found.push(table)?,
            None => return Err(PolicyFault::at(FaultKind::BadValue, key, TABLES)),
        }
    }
    Ok(found)
}

/// The tables under a key, none where the key is absent.
pub fn tables_at<'a>(
    alloc: Global,
    top: &'a Table,
    key: &'static str,
) -> Result<Vec<&'a Table>, PolicyFault>
    ensures { Gives (λ v. map (λ t. table_view t.now) v.items) result
        (tables_at key.now (table_view top.now)) }
{
    match find(top, key) {
        Some(value) => match value.as_array() {
            Some(values) => tables(alloc, key, values.as_slice()),
            None => Err(PolicyFault::at(FaultKind::BadValue, key, TABLES)),
        },
        None => Ok(Vec::new(alloc)),
    }
}
