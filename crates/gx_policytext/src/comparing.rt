//! Whether two files say the same under a key.

ghost use Rattle.std.specs.Prelude.{◌≡◌, ◌≤◌, Some, IfOk, IsTrue, option_map, string_bytes};
ghost use Rattle.toml.specs.{Data.{depth, member, no_members, get_member}, View.{view, table_view}, Parse.parse_document};

use crate::shallow::is_shallow;
use gx_units::OutOfMemory;
use std::alloc::Global;
use toml::{Table, Value};

/// The text of a file that has this value under this key, and nothing else.
///
/// # Errors
///
/// `OutOfMemory` where memory was refused.
pub fn text_of(alloc: Global, key: &str, value: &Value) -> Result<String, OutOfMemory>
    ensures { IfOk result (λ text. depth (view value.now) ≤ 80
        → parse_document (string_bytes text)
        ≡ Some (member key.now (view value.now) no_members)) }
{
    let mut table = Table::new(alloc);
    let name = String::from_str(alloc, key)?;
    let copy = value.clone()?;
    table.insert(name, copy)?;
    match toml::table_to_string(alloc, &table) {
        Ok(text) => Ok(text),
        Err(_) => Err(OutOfMemory),
    }
}

/// Whether both values are printed by one text.
fn print_alike(alloc: Global, one: &Value, other: &Value) -> bool
    ensures { IsTrue result → depth (view one.now) ≤ 80 → depth (view other.now) ≤ 80
        → view one.now ≡ view other.now }
{
    let Ok(text) = text_of(alloc, "value", one) else {
        return false;
    };
    let Ok(other_text) = text_of(alloc, "value", other) else {
        return false;
    };
    text.as_str() == other_text.as_str()
}

#[tactic(auto, using(crate::proofs::Values_depth::shallow_deep))]
fn is_same(alloc: Global, one: &Value, other: &Value) -> bool
    ensures { IsTrue result → view one.now ≡ view other.now }
{
    is_shallow(one) && is_shallow(other) && print_alike(alloc, one, other)
}

/// The value of a key, if it is there.
pub fn find<'a>(entry: &'a Table, key: &str) -> Option<&'a Value>
    ensures { option_map (λ v. view v.now) result ≡ get_member key.now (table_view entry.now) }
{
    entry.get(key)
}

/// Whether two files are seen to have the same value under a key, or none. The answer is no where memory runs out, and
/// at values that no policy file may have.
pub fn is_same_at(alloc: Global, key: &str, one: &Table, other: &Table) -> bool
    ensures { IsTrue result
        → get_member key.now (table_view one.now) ≡ get_member key.now (table_view other.now) }
{
    match find(one, key) {
        Some(value) => match find(other, key) {
            Some(other_value) => is_same(alloc, value, other_value),
            None => false,
        },
        None => find(other, key).is_none(),
    }
}
