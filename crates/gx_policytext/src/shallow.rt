//! What may stand in a policy file: strings and integers, arrays of them, and arrays of tables that have these.

ghost use Rattle.std.specs.{Prelude.◌≡◌, List.list_all};
ghost use Rattle.std.specs.BTreeMap as tree;
ghost use Rattle.toml.specs.View.{view};
ghost use Rattle.gx_policytext.specs.Shallow.{is_plain, is_field, is_entry, is_shallow};

use toml::{Table, Value};

fn is_plain(value: &Value) -> bool
    ensures { result ≡ is_plain (view value.now) }
{
    value.is_str() || value.is_integer()
}

fn are_plain(values: &[Value]) -> bool
    ensures { result ≡ list_all (λ v. is_plain (view v)) values.now }
{
    values.iter().all(|value| is_plain(value))
}

fn is_field(value: &Value) -> bool
    ensures { result ≡ is_field (view value.now) }
{
    match value.as_array() {
        Some(items) => are_plain(items.as_slice()),
        None => is_plain(value),
    }
}

fn are_fields(entry: &Table) -> bool
    ensures { result ≡ list_all (λ v. is_field (view v)) (tree.values entry.now) }
{
    entry.values().all(|value| is_field(value))
}

fn is_entry(value: &Value) -> bool
    ensures { result ≡ is_entry (view value.now) }
{
    match value.as_table() {
        Some(entry) => are_fields(entry),
        None => is_field(value),
    }
}

fn are_entries(values: &[Value]) -> bool
    ensures { result ≡ list_all (λ v. is_entry (view v)) values.now }
{
    values.iter().all(|value| is_entry(value))
}

/// Whether the value is no more than a string, an integer, or an array of such or of tables.
pub fn is_shallow(value: &Value) -> bool
    ensures { result ≡ is_shallow (view value.now) }
{
    match value.as_array() {
        Some(items) => are_entries(items.as_slice()),
        None => is_plain(value),
    }
}
