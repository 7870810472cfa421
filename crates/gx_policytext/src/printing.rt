//! A file's text, with its keys in the order in which they are checked.

use crate::comparing::{find, text_of};
use gx_units::OutOfMemory;
use std::alloc::Global;
use toml::{Table, Value};

/// The keys of accounts, stocks, users and rules, in the order in which each of these has them.
const ENTRY_KEYS: [&str; 14] = [
    "name",
    "firm",
    "reference",
    "password",
    "role",
    "account",
    "powers",
    "kind",
    "stocks",
    "limit",
    "window",
    "span",
    "count",
    "accounts",
];

/// The places of several entries, in their order.
const PLACES: [&str; 4] = ["account", "stock", "user", "rule"];

fn print_value(
    alloc: Global,
    out: &mut String,
    key: &str,
    value: &Value,
) -> Result<(), OutOfMemory> {
    let text = text_of(alloc, key, value)?;
    out.push_str(text.as_str())?;
    Ok(())
}

fn print_at(alloc: Global, out: &mut String, key: &str, entry: &Table) -> Result<(), OutOfMemory> {
    match find(entry, key) {
        Some(value) => print_value(alloc, out, key, value),
        None => Ok(()),
    }
}

fn print_entry(
    alloc: Global,
    out: &mut String,
    place: &str,
    entry: &Table,
) -> Result<(), OutOfMemory> {
    out.push_str("\n[[")?;
    out.push_str(place)?;
    out.push_str("]]\n")?;
    for key in &ENTRY_KEYS {
        print_at(alloc, out, key, entry)?;
    }
    Ok(())
}

fn print_entries(
    alloc: Global,
    out: &mut String,
    place: &str,
    values: &[Value],
) -> Result<(), OutOfMemory> {
    for value in values {
        if let Some(entry) = value.as_table() {
            print_entry(alloc, out, place, entry)?;
        }
    }
    Ok(())
}

fn print_place(
    alloc: Global,
    out: &mut String,
    place: &str,
    top: &Table,
) -> Result<(), OutOfMemory> {
    if let Some(value) = find(top, place) {
        if let Some(values) = value.as_array() {
            print_entries(alloc, out, place, values.as_slice())?;
        }
    }
    Ok(())
}

/// A place that the file has without an entry: a key like the others, which stands before the first entry of all.
fn print_empty(
    alloc: Global,
    out: &mut String,
    place: &str,
    top: &Table,
) -> Result<(), OutOfMemory> {
    if let Some(value) = find(top, place) {
        if let Some(values) = value.as_array() {
            if values.is_empty() {
                print_value(alloc, out, place, value)?;
            }
        }
    }
    Ok(())
}

fn print_keys(
    alloc: Global,
    out: &mut String,
    lifters: i64,
    top: &Table,
) -> Result<(), OutOfMemory> {
    print_value(alloc, out, "version", &Value::Integer(2))?;
    print_at(alloc, out, "session", top)?;
    print_value(alloc, out, "lifters", &Value::Integer(lifters))?;
    for place in &PLACES {
        print_empty(alloc, out, place, top)?;
    }
    Ok(())
}

fn print_file(
    alloc: Global,
    out: &mut String,
    lifters: i64,
    top: &Table,
) -> Result<(), OutOfMemory> {
    print_keys(alloc, out, lifters, top)?;
    for place in &PLACES {
        print_place(alloc, out, place, top)?;
    }
    Ok(())
}

/// The text of a file of version 2 that says what this table says of the session, the accounts, the stocks, the users
/// and the rules, and that so many officers have to lift.
///
/// # Errors
///
/// `OutOfMemory` where memory was refused.
pub fn printed(alloc: Global, lifters: i64, top: &Table) -> Result<String, OutOfMemory> {
    let mut out = String::new(alloc);
    match print_file(alloc, &mut out, lifters, top) {
        Ok(()) => Ok(out),
        Err(refused) => Err(refused),
    }
}

/// The line of a file that has this key and its value, or None where the key is absent. Of several lines it is the
/// first; a string is in one line, with escapes.
pub fn line_at(alloc: Global, key: &str, entry: &Table) -> Result<Option<String>, OutOfMemory> {
    match find(entry, key) {
        Some(value) => Ok(Some(line_of(alloc, key, value)?)),
        None => Ok(None),
    }
}

fn line_of(alloc: Global, key: &str, value: &Value) -> Result<String, OutOfMemory> {
    match value.as_str() {
        Some(text) => match format!(in alloc; "{key} = {text:?}") {
            Ok(line) => Ok(line),
            Err(_) => Err(OutOfMemory),
        },
        None => first_line(alloc, text_of(alloc, key, value)?.as_str()),
    }
}

fn first_line(alloc: Global, text: &str) -> Result<String, OutOfMemory> {
    let line = text.lines().next().unwrap_or("");
    Ok(String::from_str(alloc, line)?)
}
